// #BIN#, basic and extended: the states of sender and receiver, and what they do.
#![tactic(auto)]

use calls::Outcome;
use crc::Reading;

#[derive(Clone, Copy)]
pub enum SenderState {
    // Nothing was sent yet.
    Start,
    // The line was sent.
    Wait,
    // The index in the file of the next byte to send.
    Send { at: u32 },
    Ended { outcome: Outcome },
}

// What a sender is begun with beside name, size and block: nothing in a basic transfer.
#[derive(Clone, Copy)]
pub enum Announce {
    Basic,
    // The stamp, whether resume is possible, and the reading that the session's CRCs go by, which the line does not tell.
    Extended {
        stamp: u32,
        resumes: bool,
        reading: Reading,
    },
}

#[derive(Clone, Copy)]
pub enum ReceiverState {
    Waiting,
    // A basic transfer: the size, and how many bytes came.
    Basic { size: u32, kept: u32 },
    // An extended transfer: the announced CRC; the rest is in the record.
    Extended { crc: u16 },
    Ended { outcome: Outcome },
}
