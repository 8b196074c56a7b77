/// The processors, oldest first.
#[derive(Clone, Copy)]
pub enum Processor {
    M68000,
    M68010,
    M68020,
}
