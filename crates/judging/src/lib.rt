// What a judgement is: its verdict, and what stands beside it. There is no code here: specs/ says what judging means, and proofs/ what
// follows from it.

#![tactic(auto)]

// How a judgement ended. Steps are the beginnings tried.
#[derive(Clone, Copy)]
pub enum Verdict {
    // Some permitted renumbering makes every full drawing smaller: the winning pair of the first certificate.
    Smaller { row: u32, column: u32, steps: u32 },
    // There is no certificate.
    Nothing { steps: u32 },
    // The budget was used up first.
    Cut { steps: u32 },
    // The graph or the buffer is refused.
    Refused { number: u32, place: usize },
}

// A verdict, with the first certificate (zeros except for Smaller) and how many literals of its clause were written.
#[derive(Clone, Copy)]
pub struct Judged {
    pub verdict: Verdict,
    pub arrangement: [u8; 32],
    pub literals: usize,
}
