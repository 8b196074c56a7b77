// The functions on the values of an instruction and on its fields: a module for each type.
#![tactic(auto)]

pub mod bit_field_operation;
pub mod code;
pub mod condition;
pub mod control_register;
pub mod displacement_size;
pub mod extension_word;
pub mod field;
pub mod index_base;
pub mod processor;
pub mod register_operand;
pub mod size;
