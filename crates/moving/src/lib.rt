// What a desk does from one decision moment to the next: the slots worked on its piece, and its run noted.
#![tactic(auto)]

pub mod log;
pub mod work;
