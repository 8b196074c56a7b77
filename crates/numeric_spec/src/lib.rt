// The numeric form, defined: an instruction is its variant's place in encoded.rs, then its payload in declared order.
#![tactic(auto)]

use isa::Instruction;

// The instruction that numbers say.
#[derive(Clone, Copy)]
pub enum Built {
    Instruction(Instruction),
    NotInForm,
}
