// What the requests are.
ghost use Rattle.lines.specs.Appends.{Appends};
ghost use Rattle.replies.specs.Help.{help_text};

use lines::text::Text;

#[tactic(auto, unfolding(crate::specs::Help::help_text))]
pub(crate) fn put_help(text: &mut Text<'_>)
    ensures { Appends help_text text.old text.new }
{
    text.push_all(
        b"A request is a line: words apart by single spaces, numbers in decimal, bytes in hexadecimal.
  erect HEX         replaces everything by the tower of this file; answers ok
  hang NUMBER SECTION WIDTH LENGTH BARE ICED K
                    hangs an item: section 0 is the top, width and length in mm, bare and iced
                    coefficient and position factor K in thousandths; answers ok
  takedown NUMBER   takes down the item of this number; answers ok
  wind K ICE FACTOR P0 P1 ..
                    wind K times 15 degrees from the normal of face 1, ice class 0 to 5, structure
                    factor in thousandths, then each section's pressure in N/m2; answers ok
  report [ROOM]     answers ok SECTIONS, then a line a section from the top: flat, subcritical and
                    supercritical area in mm2, force in N, shear in N, moment in N mm at its foot
  check             answers ok SECTION, the topmost whose shear is above its allowance, or ok none
  write [ROOM]      answers ok HEX, the tower's file
  help              answers this text
ROOM: how many numbers (192 at most) or bytes (3000 at most) may be filled; without it, all.
refused N: turned down by rule N of document 01, as listed in include/dembyhai.h; nothing changed.
error: the line is no request, and what is wrong with it; nothing changed.
",
    );
}
