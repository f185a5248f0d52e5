// The two tables of source document 000: what each end does with a packet, by the end's state and the packet's kind.
ghost use Rattle.std.specs.Prelude.{◌≡◌, ◌<◌, ◌≤◌};
ghost use Rattle.yapp.specs.Rows.{sender_row, receiver_row};
ghost use Rattle.yapp.specs.Table.{action_number};
ghost use Rattle.yapp.specs.Cells.{kinds, column_of, sender_number, receiver_number};

use crate::{ReceiverState, SenderState};

// What can be done, as the tables have it. Document 01 keeps the tables as numbers, and the contracts below answer these numbers: so they have
// names, and are no enum.

// Nothing changes, and nothing is sent.
pub const NOTHING: u8 = 0;
// CN without reason, and CW.
pub const ABORT: u8 = 1;
// The end, as refused by the far end.
pub const REFUSED: u8 = 2;
// CA, and the end as cancelled.
pub const CANCELLED: u8 = 3;
// The end, as success.
pub const SUCCESS: u8 = 4;
// CW ends.
pub const END_CW: u8 = 5;
// CA.
pub const ANSWER: u8 = 6;
// HD.
pub const SEND_HEADER: u8 = 7;
// The file from its first byte.
pub const START: u8 = 8;
// The same with checksums.
pub const START_CHECKED: u8 = 9;
// The file from the position of RE.
pub const RESUME: u8 = 10;
// ET.
pub const SEND_TRAILER: u8 = 11;
// RR.
pub const READY: u8 = 12;
// AT, and the end as success.
pub const TRAILER: u8 = 13;
// A header is judged.
pub const JUDGE: u8 = 14;
// A second file is refused.
pub const SECOND_FILE: u8 = 15;
// The data of a DT are stored.
pub const STORE: u8 = 16;
// EF ends the file.
pub const END_FILE: u8 = 17;

// How many kinds of packets there are, the unfinished packet the last.
const KINDS: usize = 19;

// The kind of unreadable bytes.
const UNREADABLE: usize = 17;

// A sender's action, by state and kind of packet.
const SEND: [[u8; KINDS]; 7] = [
    [
        7, // S, RR: HD
        8, // S, RF: start
        1, // S, AF: abort
        1, // S, AT: abort
        1, // S, CA: abort
        1, // S, RT: abort
        1, // S, SI: abort
        0, // S, RI: nothing
        1, // S, HD: abort
        1, // S, DT: abort
        1, // S, EF: abort
        1, // S, ET: abort
        2, // S, NR: refused
        1, // S, RE: abort
        3, // S, CN: CA, cancelled
        1, // S, TX: abort
        1, // S, malformed HD: abort
        1, // S, unreadable: abort
        0, // S, unfinished: nothing
    ],
    [
        1, // SH, RR: abort
        8, // SH, RF: start
        1, // SH, AF: abort
        1, // SH, AT: abort
        1, // SH, CA: abort
        9, // SH, RT: start with checksums
        1, // SH, SI: abort
        1, // SH, RI: abort
        1, // SH, HD: abort
        1, // SH, DT: abort
        1, // SH, EF: abort
        1, // SH, ET: abort
        2, // SH, NR: refused
        10, // SH, RE: resume
        3, // SH, CN: CA, cancelled
        1, // SH, TX: abort
        1, // SH, malformed HD: abort
        1, // SH, unreadable: abort
        0, // SH, unfinished: nothing
    ],
    [
        1, // SD, RR: abort
        1, // SD, RF: abort
        1, // SD, AF: abort
        1, // SD, AT: abort
        1, // SD, CA: abort
        1, // SD, RT: abort
        1, // SD, SI: abort
        1, // SD, RI: abort
        1, // SD, HD: abort
        1, // SD, DT: abort
        1, // SD, EF: abort
        1, // SD, ET: abort
        1, // SD, NR: abort
        1, // SD, RE: abort
        3, // SD, CN: CA, cancelled
        0, // SD, TX: nothing
        1, // SD, malformed HD: abort
        1, // SD, unreadable: abort
        0, // SD, unfinished: nothing
    ],
    [
        1, // SE, RR: abort
        1, // SE, RF: abort
        11, // SE, AF: ET
        1, // SE, AT: abort
        1, // SE, CA: abort
        1, // SE, RT: abort
        1, // SE, SI: abort
        1, // SE, RI: abort
        1, // SE, HD: abort
        1, // SE, DT: abort
        1, // SE, EF: abort
        1, // SE, ET: abort
        1, // SE, NR: abort
        1, // SE, RE: abort
        3, // SE, CN: CA, cancelled
        1, // SE, TX: abort
        1, // SE, malformed HD: abort
        1, // SE, unreadable: abort
        0, // SE, unfinished: nothing
    ],
    [
        4, // ST, RR: success
        4, // ST, RF: success
        4, // ST, AF: success
        4, // ST, AT: success
        4, // ST, CA: success
        4, // ST, RT: success
        4, // ST, SI: success
        4, // ST, RI: success
        4, // ST, HD: success
        4, // ST, DT: success
        4, // ST, EF: success
        4, // ST, ET: success
        4, // ST, NR: success
        4, // ST, RE: success
        3, // ST, CN: CA, cancelled
        4, // ST, TX: success
        4, // ST, malformed HD: success
        4, // ST, unreadable: success
        0, // ST, unfinished: nothing
    ],
    [
        0, // CW, RR: nothing
        0, // CW, RF: nothing
        0, // CW, AF: nothing
        0, // CW, AT: nothing
        5, // CW, CA: end
        0, // CW, RT: nothing
        0, // CW, SI: nothing
        0, // CW, RI: nothing
        0, // CW, HD: nothing
        0, // CW, DT: nothing
        0, // CW, EF: nothing
        0, // CW, ET: nothing
        0, // CW, NR: nothing
        0, // CW, RE: nothing
        6, // CW, CN: CA
        0, // CW, TX: nothing
        0, // CW, malformed HD: nothing
        0, // CW, unreadable: nothing
        0, // CW, unfinished: nothing
    ],
    [
        0, // Ended, RR: nothing
        0, // Ended, RF: nothing
        0, // Ended, AF: nothing
        0, // Ended, AT: nothing
        0, // Ended, CA: nothing
        0, // Ended, RT: nothing
        0, // Ended, SI: nothing
        0, // Ended, RI: nothing
        0, // Ended, HD: nothing
        0, // Ended, DT: nothing
        0, // Ended, EF: nothing
        0, // Ended, ET: nothing
        0, // Ended, NR: nothing
        0, // Ended, RE: nothing
        0, // Ended, CN: nothing
        0, // Ended, TX: nothing
        0, // Ended, malformed HD: nothing
        0, // Ended, unreadable: nothing
        0, // Ended, unfinished: nothing
    ],
];

// A receiver's action, by state and kind of packet.
const RECEIVE: [[u8; KINDS]; 6] = [
    [
        1, // R, RR: abort
        1, // R, RF: abort
        1, // R, AF: abort
        1, // R, AT: abort
        1, // R, CA: abort
        1, // R, RT: abort
        12, // R, SI: RR
        1, // R, RI: abort
        1, // R, HD: abort
        1, // R, DT: abort
        1, // R, EF: abort
        1, // R, ET: abort
        2, // R, NR: refused
        1, // R, RE: abort
        3, // R, CN: CA, cancelled
        1, // R, TX: abort
        1, // R, malformed HD: abort
        1, // R, unreadable: abort
        0, // R, unfinished: nothing
    ],
    [
        1, // RH, RR: abort
        1, // RH, RF: abort
        1, // RH, AF: abort
        1, // RH, AT: abort
        1, // RH, CA: abort
        1, // RH, RT: abort
        0, // RH, SI: nothing
        1, // RH, RI: abort
        14, // RH, HD: judge
        1, // RH, DT: abort
        1, // RH, EF: abort
        13, // RH, ET: AT
        1, // RH, NR: abort
        1, // RH, RE: abort
        3, // RH, CN: CA, cancelled
        1, // RH, TX: abort
        14, // RH, malformed HD: judge
        1, // RH, unreadable: abort
        0, // RH, unfinished: nothing
    ],
    [
        1, // RH with a file, RR: abort
        1, // RH with a file, RF: abort
        1, // RH with a file, AF: abort
        1, // RH with a file, AT: abort
        1, // RH with a file, CA: abort
        1, // RH with a file, RT: abort
        0, // RH with a file, SI: nothing
        1, // RH with a file, RI: abort
        15, // RH with a file, HD: second file
        1, // RH with a file, DT: abort
        1, // RH with a file, EF: abort
        13, // RH with a file, ET: AT
        1, // RH with a file, NR: abort
        1, // RH with a file, RE: abort
        3, // RH with a file, CN: CA, cancelled
        1, // RH with a file, TX: abort
        15, // RH with a file, malformed HD: second file
        1, // RH with a file, unreadable: abort
        0, // RH with a file, unfinished: nothing
    ],
    [
        1, // RD, RR: abort
        1, // RD, RF: abort
        1, // RD, AF: abort
        1, // RD, AT: abort
        1, // RD, CA: abort
        1, // RD, RT: abort
        1, // RD, SI: abort
        1, // RD, RI: abort
        1, // RD, HD: abort
        16, // RD, DT: store
        17, // RD, EF: end of file
        1, // RD, ET: abort
        1, // RD, NR: abort
        1, // RD, RE: abort
        3, // RD, CN: CA, cancelled
        1, // RD, TX: abort
        1, // RD, malformed HD: abort
        1, // RD, unreadable: abort
        0, // RD, unfinished: nothing
    ],
    [
        0, // CW, RR: nothing
        0, // CW, RF: nothing
        0, // CW, AF: nothing
        0, // CW, AT: nothing
        5, // CW, CA: end
        0, // CW, RT: nothing
        0, // CW, SI: nothing
        0, // CW, RI: nothing
        0, // CW, HD: nothing
        0, // CW, DT: nothing
        0, // CW, EF: nothing
        0, // CW, ET: nothing
        0, // CW, NR: nothing
        0, // CW, RE: nothing
        6, // CW, CN: CA
        0, // CW, TX: nothing
        0, // CW, malformed HD: nothing
        0, // CW, unreadable: nothing
        0, // CW, unfinished: nothing
    ],
    [
        0, // Ended, RR: nothing
        0, // Ended, RF: nothing
        0, // Ended, AF: nothing
        0, // Ended, AT: nothing
        0, // Ended, CA: nothing
        0, // Ended, RT: nothing
        0, // Ended, SI: nothing
        0, // Ended, RI: nothing
        0, // Ended, HD: nothing
        0, // Ended, DT: nothing
        0, // Ended, EF: nothing
        0, // Ended, ET: nothing
        0, // Ended, NR: nothing
        0, // Ended, RE: nothing
        0, // Ended, CN: nothing
        0, // Ended, TX: nothing
        0, // Ended, malformed HD: nothing
        0, // Ended, unreadable: nothing
        0, // Ended, unfinished: nothing
    ],
];

// Which row of SEND is the state's.
#[tactic(auto, unfolding(crate::specs::Cells::sender_number))]
fn sender_number(state: SenderState) -> usize
    ensures { (result ≡ sender_number state) × (result ≤ 6) }
{
    match state {
        SenderState::S { .. } => 0,
        SenderState::SH => 1,
        SenderState::SD { .. } => 2,
        SenderState::SE => 3,
        SenderState::ST => 4,
        SenderState::CW { .. } => 5,
        SenderState::Ended { .. } => 6,
    }
}

// Which row of RECEIVE is the state's.
#[tactic(auto, unfolding(crate::specs::Cells::receiver_number))]
fn receiver_number(state: ReceiverState) -> usize
    ensures { (result ≡ receiver_number state) × (result ≤ 5) }
{
    match state {
        ReceiverState::R => 0,
        ReceiverState::RH { whole } => if whole { 2 } else { 1 },
        ReceiverState::RD => 3,
        ReceiverState::CW { .. } => 4,
        ReceiverState::Ended { .. } => 5,
    }
}

// A number that is no kind stands for unreadable bytes.
fn column_of(kind: usize) -> usize
    ensures { (result ≡ column_of kind) × (result < kinds) }
{
    if kind < KINDS { kind } else { UNREADABLE }
}

// What a sender in the state does with a packet of the kind.
pub fn send_action(state: SenderState, kind: usize) -> u8
    ensures { result ≡ action_number (sender_row state kind) }
{
    SEND[sender_number(state)][column_of(kind)]
}

// What a receiver in the state does with a packet of the kind.
pub fn receive_action(state: ReceiverState, kind: usize) -> u8
    ensures { result ≡ action_number (receiver_row state kind) }
{
    RECEIVE[receiver_number(state)][column_of(kind)]
}
