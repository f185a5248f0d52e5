// YAPP and YappC: the states of sender and receiver, and what they do.
#![tactic(auto)]

use calls::Outcome;

pub mod table;

#[derive(Clone, Copy)]
pub enum SenderState {
    // Whether SI was sent, and how many timeouts came since.
    S { begun: bool, timeouts: u8 },
    SH,
    // The index in the file of the next byte to send.
    SD { at: u32 },
    SE,
    ST,
    CW { outcome: Outcome },
    Ended { outcome: Outcome },
}

#[derive(Clone, Copy)]
pub enum ReceiverState {
    R,
    // Whether a file was received.
    RH { whole: bool },
    RD,
    CW { outcome: Outcome },
    Ended { outcome: Outcome },
}
