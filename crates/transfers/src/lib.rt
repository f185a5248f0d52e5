// Demand 3: any list of sessions, each by YAPP or extended #BIN#. The crate has no code: the theorem is about the definitions that the
// senders and receivers are proved to meet.
#![tactic(auto)]
