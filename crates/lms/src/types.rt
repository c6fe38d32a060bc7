// The types of keys that are taken (RFC 8554, sections 4.1 and 5.1): a tree's, and a one-time signature's, which says its width.
ghost use Rattle.std.specs.Prelude.{◌≡◌, is_some, IfSome};
ghost use Rattle.rfc8554.specs.Ots.{known_ots};
ghost use Rattle.lms.specs.Types.{ots_type};

use lmots_digits::width::Width;

// A tree's type, by its levels.
#[derive(Clone, Copy, Debug, PartialEq, Eq)]
pub(crate) enum TreeType {
    Five = 5,
    Ten = 6,
}

impl TreeType {
    ghost use Rattle.std.specs.Prelude.{◌≤◌, ◌^◌};
    ghost use Rattle.rfc8554.specs.Tree as Tree;
    ghost use Rattle.lms.specs.Types.{tree_type};

    // The type with a number, where it is known.
    #[tactic(auto, unfolding(rfc8554::specs::Tree::known_lms))]
    pub(crate) fn of(number: u32) -> Option<TreeType>
        ensures known { is_some result ≡ Tree.known_lms number }
        ensures number { IfSome result (λ t. tree_type t ≡ number) }
    {
        match number {
            5 => Some(TreeType::Five),
            6 => Some(TreeType::Ten),
            _ => None,
        }
    }

    // Its number.
    pub(crate) fn number(self) -> u32
        ensures { result ≡ tree_type self }
    {
        self as u32
    }

    #[tactic(auto, unfolding(rfc8554::specs::Tree::height))]
    pub(crate) fn height(self) -> usize
        ensures { (result ≡ Tree.height (tree_type self)) × (result ≤ 10) }
    {
        match self {
            TreeType::Five => 5,
            TreeType::Ten => 10,
        }
    }

    // The leaves of a tree.
    #[tactic(auto, unfolding(rfc8554::specs::Tree::height))]
    pub(crate) fn leaves(self) -> u32
        ensures { (result ≡ 2 ^ Tree.height (tree_type self)) × (result ≤ 1024) }
    {
        match self {
            TreeType::Five => 32,
            TreeType::Ten => 1024,
        }
    }
}

// The width of a one-time signature's type, where it is known.
#[tactic(auto, unfolding(rfc8554::specs::Ots::known_ots))]
pub(crate) fn width_of(number: u32) -> Option<Width>
    ensures known { is_some result ≡ known_ots number }
    ensures width { IfSome result (λ w. ots_type w ≡ number) }
{
    match number {
        3 => Some(Width::Four),
        4 => Some(Width::Eight),
        _ => None,
    }
}

// The number of the type with a width.
pub(crate) fn ots_type(w: Width) -> u32
    ensures { result ≡ ots_type w }
{
    match w {
        Width::Four => 3,
        Width::Eight => 4,
    }
}
