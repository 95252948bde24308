// The kinds of block and the one constant table by kind; settings, ticks, and the one conversion between them.
#![tactic(auto)]

ghost use Rattle.std.specs.Prelude.{◌≡◌, pos};
ghost use Rattle.words.specs.Signed.{Between, over};
ghost use Rattle.kinds.specs.Time.{longest, setting_of, ticks_of};
ghost use Rattle.kinds.specs.Kinds.{setting_fits};

mod kind;
mod table;

pub use kind::{Kind, UnknownKind};

// A number in its timebase: the base (0 seconds, 1 minutes, 2 hours), and the number. The definitions setting_of and ticks_of hold it to
// this form: a base that is no parameter of an allowed block counts hours.
#[derive(Clone, Copy)]
pub struct Setting(pub u8, pub u16);

// A count of ticks of 10 ms.
#[derive(Clone, Copy)]
pub struct Ticks(pub u32);

impl Setting {
    // The setting that two parameters of an allowed block are.
    pub fn new(base: i32, t: i32) -> Setting
        requires { Between (pos 0) (pos 2) base × Between (pos 0) (pos 9999) t }
        ensures { result ≡ setting_of base t }
    {
        Setting(base as u8, t as u16)
    }
}

impl From<Setting> for Ticks {
    ghost from_gives = { λ setting ticks. ticks ≡ ticks_of setting };

    #[tactic(auto, unfolding(crate::specs::Time::ticks_of))]
    fn from(setting: Setting) -> Self {
        let Setting(base, t) = setting;
        match base {
            0 => Ticks(t as u32),
            1 => Ticks(100 * t as u32),
            _ => Ticks(6000 * t as u32),
        }
    }
}

// The greatest setting of a timebase. It takes any number, since it is parameters of any value that are judged.
pub fn longest_of(base: i32) -> i32
    ensures { result ≡ pos (longest (over base)) }
{
    if base <= 0 { 9999 } else { 5999 }
}

// Whether a setting is in the range of its timebase.
pub fn setting_fits(base: i32, t: i32) -> bool
    ensures { result ≡ setting_fits base t }
{
    (0..=longest_of(base)).contains(&t)
}
