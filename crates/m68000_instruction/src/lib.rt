// Whether an instruction in plain form is of the MC68000, and so what is answered of a reading.
#![tactic(auto)]

ghost use Rattle.std.specs.Prelude.{◌≡◌};
ghost use Rattle.m68000_spec.specs.Of68000.{into_register_of_68000, transfer_of_68000, immediate_into_of_68000, unsized_into_register_of_68000, unsized_one_of_68000, ext_of_68000, one_operand_of_68000, branch_of_68000, link_of_68000, vector_of_68000, operand_of_68000, of68000};
ghost use Rattle.read_spec.specs.Reading.{as_reading};
ghost use Rattle.m68000_spec.specs.Reading68000.{as_reading_68000};
ghost use Rattle.m68000_spec.specs.Read68000.{restricted};

use isa::{
    BranchSize, ImmediateOperation, Instruction, LinkOperation, OneOperation, Operand,
    RegisterOperation, Size, TransferOperation, UnsizedOneOperation, UnsizedRegisterOperation,
    VectorOperation,
};
use isa_operands::{DATA_ALTERABLE, permitted};
use isa_values::code;
use m68000_spec::Unread68000;
use read_spec::{Read, Unread};

fn into_register(op: RegisterOperation) -> bool
    ensures { result ≡ into_register_of_68000 op }
{
    match op {
        RegisterOperation::ADDA
        | RegisterOperation::SUBA
        | RegisterOperation::CMPA
        | RegisterOperation::MOVEA
        | RegisterOperation::CMP => true,
        RegisterOperation::CHK2 | RegisterOperation::CMP2 => false,
    }
}

fn transfer(op: TransferOperation) -> bool
    ensures { result ≡ transfer_of_68000 op }
{
    match op {
        TransferOperation::MOVEP => true,
        TransferOperation::MOVES => false,
    }
}

fn immediate_into(op: ImmediateOperation, o: Operand) -> bool
    ensures { result ≡ immediate_into_of_68000 op o }
{
    match op {
        ImmediateOperation::ADDI
        | ImmediateOperation::SUBI
        | ImmediateOperation::ANDI
        | ImmediateOperation::ORI
        | ImmediateOperation::EORI => true,
        ImmediateOperation::CMPI => permitted(DATA_ALTERABLE, o),
    }
}

fn unsized_into_register(op: UnsizedRegisterOperation) -> bool
    ensures { result ≡ unsized_into_register_of_68000 op }
{
    match op {
        UnsizedRegisterOperation::LEA | UnsizedRegisterOperation::CHK => true,
        UnsizedRegisterOperation::CHKL => false,
    }
}

fn unsized_one(op: UnsizedOneOperation) -> bool
    ensures { result ≡ unsized_one_of_68000 op }
{
    match op {
        UnsizedOneOperation::PEA
        | UnsizedOneOperation::NBCD
        | UnsizedOneOperation::JSR
        | UnsizedOneOperation::JMP
        | UnsizedOneOperation::TAS
        | UnsizedOneOperation::MOVEtoCCR
        | UnsizedOneOperation::MOVEtoSR
        | UnsizedOneOperation::MOVEfromSR => true,
        UnsizedOneOperation::MOVEfromCCR => false,
    }
}

fn ext(from: Size, to: Size) -> bool
    ensures { result ≡ ext_of_68000 from to }
{
    match from {
        Size::Byte => code::is_word(to),
        Size::Word | Size::Long => true,
    }
}

fn one_operand(op: OneOperation, o: Operand) -> bool
    ensures { result ≡ one_operand_of_68000 op o }
{
    match op {
        OneOperation::CLR | OneOperation::NEG | OneOperation::NEGX | OneOperation::NOT => true,
        OneOperation::TST => permitted(DATA_ALTERABLE, o),
    }
}

fn branch(size: BranchSize) -> bool
    ensures { result ≡ branch_of_68000 size }
{
    match size {
        BranchSize::Short | BranchSize::Word => true,
        BranchSize::Long => false,
    }
}

fn link(op: LinkOperation) -> bool
    ensures { result ≡ link_of_68000 op }
{
    match op {
        LinkOperation::LINK => true,
        LinkOperation::LINKL => false,
    }
}

fn vector(op: VectorOperation) -> bool
    ensures { result ≡ vector_of_68000 op }
{
    match op {
        VectorOperation::TRAP => true,
        VectorOperation::BKPT => false,
    }
}

// Neither a full extension word nor a scale above 1.
fn operand(o: Operand) -> bool
    ensures { result ≡ operand_of_68000 o }
{
    let Operand::Extended { .. } = o else {
        return true;
    };
    false
}

// Whether an instruction is of the MC68000.
fn of_68000(i: Instruction) -> bool
    ensures { result ≡ of68000 i }
{
    match i {
        Instruction::IntoRegister(op, o, ..) => into_register(op) & operand(o),
        Instruction::MOVEM { target, .. } => operand(target),
        Instruction::Transfer {
            operation,
            target,
            ..
        } => transfer(operation) & operand(target),
        Instruction::Pair(_, o, d, _) => operand(o) & operand(d),
        Instruction::Quick(_, _, o, _) => operand(o),
        Instruction::ImmediateInto(op, _, o, _) => immediate_into(op, o) & operand(o),
        Instruction::WordIntoData(_, o, ..) => operand(o),
        Instruction::UnsizedIntoRegister(op, o, _) => unsized_into_register(op) & operand(o),
        Instruction::UnsizedOne(op, o) => unsized_one(op) & operand(o),
        Instruction::UnsizedPair(_, o, d) => operand(o) & operand(d),
        Instruction::EXT(_, from, to) => ext(from, to),
        Instruction::OneOperand(op, o, _) => one_operand(op, o) & operand(o),
        Instruction::Bcc(_, _, s) => branch(s),
        Instruction::Scc(o, _) => operand(o),
        Instruction::Branch(_, _, s) => branch(s),
        Instruction::Link(op, ..) => link(op),
        Instruction::Shift(_, count, o, ..) => operand(count) & operand(o),
        Instruction::Vector(op, _) => vector(op),
        Instruction::RTD(_) => false,
        Instruction::MOVEC { .. } => false,
        Instruction::TRAPcc(..) => false,
        Instruction::MULL { .. } => false,
        Instruction::Pack(..) => false,
        Instruction::CAS { .. } => false,
        Instruction::CAS2 { .. } => false,
        Instruction::BF { .. } => false,
        Instruction::DIVL { .. } => false,
        _ => true,
    }
}

/// What the first reader read, where it is of the MC68000; what it refuses is refused.
#[tactic(auto, using(crate::proofs::First::refused_restricted))]
pub fn restricted(reading: Result<Read, Unread>) -> Result<Read, Unread68000>
    ensures { as_reading_68000 result ≡ restricted (as_reading reading) }
{
    match reading {
        Ok(read) => {
            if of_68000(read.instruction) {
                Ok(read)
            } else {
                Err(Unread68000::NotOf68000)
            }
        }
        Err(unread) => Err(Unread68000::First(unread)),
    }
}
