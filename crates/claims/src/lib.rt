// What is claimed of the functions `open`, `call`, `run`, `write_sheet` and `write_gaps`, in any mixture and however
// often: no code stands here. proofs/Ran.antt says what is spoken of, and proofs/Claims.antt has every claim, in order.
#![tactic(auto)]
