// A round of `rearrange_temperatures` that sums over the running group's layers alone, and writes a group's temperature when the group ends (01, Mix).
// Where every volume × temperature that it meets is finite, it leaves what the definition says: terms times 0 add nothing then.
#![tactic(auto)]

pub mod round;
