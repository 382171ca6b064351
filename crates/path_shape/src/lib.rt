// Request #101, what a rasteriser relies on: the shape of a path, the exactness of its places, and that steps and the whole agree. It has no code: proofs/ is what it offers.
#![tactic(auto)]
