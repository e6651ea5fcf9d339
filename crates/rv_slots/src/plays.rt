//! The rule of the table, and for each kind of step what it teaches the seat that makes it.
ghost use Rattle.rv_slots.specs.Rule.{Kept, opening_view};
ghost use Rattle.rv_slots.specs.Lines.{claim_told, put_told, publish_told, pin_told, get_told};
ghost use Rattle.rv_slots.specs.Lines.{done_told, unpin_told, free_told};
ghost use Rattle.rv_slots.specs.Lines.{meet_told, cut_left, cut_right, joined, spent};

use crate::views::View;
use atomic_table::{Join, Play, Split, TableRule};

/// The rule: words and views are a state of the machine, which some steps from its start lead to.
pub struct SlotRule;

impl TableRule<(), View, usize> for SlotRule {
    ghost holds = { Kept };

    ghost first = { λ _. opening_view };
}

/// A claim.
pub(crate) struct Claims;

impl Play<(), View> for Claims {
    ghost then = { claim_told };
}

/// A put.
pub(crate) struct Puts;

impl Play<(), View> for Puts {
    ghost then = { put_told };
}

/// A publish.
pub(crate) struct Publishes;

impl Play<(), View> for Publishes {
    ghost then = { publish_told };
}

/// A pin.
pub(crate) struct Pins;

impl Play<(), View> for Pins {
    ghost then = { pin_told };
}

/// A get.
pub(crate) struct Gets;

impl Play<(), View> for Gets {
    ghost then = { get_told };
}

/// A done.
pub(crate) struct Finishes;

impl Play<(), View> for Finishes {
    ghost then = { done_told };
}

/// An unpin.
pub(crate) struct Unpins;

impl Play<(), View> for Unpins {
    ghost then = { unpin_told };
}

/// A free.
pub(crate) struct Frees;

impl Play<(), View> for Frees {
    ghost then = { free_told };
}

/// The load by which two joined seats learn that their records agree.
pub(crate) struct Meets;

impl Play<(), View> for Meets {
    ghost then = { meet_told };
}

/// The split of a view after its first seat.
pub(crate) struct Cut;

impl Split<View> for Cut {
    ghost left = { cut_left };

    ghost right = { cut_right };
}

/// The join of two views.
pub(crate) struct Glue;

impl Join<View> for Glue {
    ghost both = { joined };

    ghost spent = { spent };
}
