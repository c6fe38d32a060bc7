// Values: comparison, and reading from a message.
ghost use Rattle.std.specs.Prelude.{◌≡◌, ◌+◌, ◌≤◌, length};
ghost use Rattle.protocol.specs.Layout.{value_length};
ghost use Rattle.protocol.specs.Values.{is_lower};
ghost use Rattle.protocol.specs.Message.{read_value};

// Whether the value a is lower than b, compared byte by byte from the first, as far as both go.
pub fn lower(a: &[u8], b: &[u8]) -> bool
    ensures { result ≡ is_lower a.now b.now }
{
    let both = a.len().min(b.len());
    a[..both] < b[..both]
}

// The value at index `at` of a message.
pub fn value_at(m: &[u8], at: usize) -> [u8; 32]
    requires { at + value_length ≤ length m.now }
    ensures { result ≡ read_value at m.now }
{
    let mut value = [0u8; 32];
    value.copy_from_slice(&m[at..at + 32]);
    value
}
