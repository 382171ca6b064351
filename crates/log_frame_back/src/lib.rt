// Frames there and back: writing a job and reading it gives the job, reading a good line and writing it gives the line. It has no code: proofs/ is what it offers.
#![tactic(auto)]
