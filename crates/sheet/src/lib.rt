// `sheet`: a weight set as text, key=value lines that a line engineer can read: the keys, the text (`sheet_text_value`) and the answer of whoever writes it. `sheet_text` lays its
// parts over a lent list, `write_sheets` judges a set and the room and writes the whole; the scanners read it back.
#![tactic(auto)]

pub mod keys;

use refusal::Refusal;
