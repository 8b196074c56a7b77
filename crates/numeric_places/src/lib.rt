// Numbers in 24 places, as code holds them.
#![tactic(auto)]

// Number k is magnitude[k], negated where negative[k]; at or past count there is none.
#[derive(Clone, Copy)]
pub struct Numbers {
    pub count: usize,
    pub negative: [bool; 24],
    pub magnitude: [u64; 24],
}
