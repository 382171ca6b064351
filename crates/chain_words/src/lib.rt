// What the calls over lent words leave of them: whole records, every word within its field's values, that are read as the table handed back. It has no code: proofs/ is what it offers.
#![tactic(auto)]
