// Document 01 as definitions: what a call does to a station, and what a station is in bytes. There is no code here and nothing that names
// code, so that a change of the code cannot change what is claimed.
//
// Bytes are read as a book, which is limits, counters and four chains of records, and a book as a station, whose records are alarms and
// events. Steps are plain functions from a station to a station or a refusal. `step_of` in specs/Lists.antt is a call on any bytes, `open_of` in
// specs/Opening.antt is opening, and specs/Claim.antt is demand 3: all else is named by these.
//
// specs/Lib.antt lists the files in document 01's order; definitions quote the sentences that they state. specs/Clauses has the words that
// contracts inside the code need besides, and proofs/Laws what follows from the definitions.

#![tactic(auto)]
