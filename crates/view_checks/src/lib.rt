// What is asked of every view of a pass: in `views` numbers 30 to 36, in `overlap` which surfaces are taken (41), in `mask` the multiview mask.
#![tactic(auto)]

pub mod mask;
pub mod overlap;
pub mod views;
