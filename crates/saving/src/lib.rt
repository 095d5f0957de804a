// Saving the settings to an image, and restoring them from one.
// No public function has a `requires`; each promise settles the result and every byte lent.
#![tactic(auto)]

pub mod image;
pub mod restore;
pub mod save;
