// A sheet that is judged fine, with what is then known of its numbers (specs/Sound.antt).
#![tactic(auto)]

ghost use Rattle.sheet.specs.Sound.{Sound};

use super::Sheet;

#[derive(Clone, Copy)]
pub struct Judged {
    pub sheet: Sheet,
    pub ghost sound: { Sound sheet },
}
