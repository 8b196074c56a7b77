// The refusals of the reader of MC68000 boards.
#![tactic(auto)]

use read_spec::Unread;

/// What the first reader refuses, or an instruction that is not of the MC68000.
#[derive(Clone, Copy, Debug, PartialEq, Eq)]
pub enum Unread68000 {
    First(Unread),
    NotOf68000,
}
