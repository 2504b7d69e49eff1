// The predefined units as sources, for what is said of their names.
use crate::words::is_same;

const STANDARD: &[u8] = b"package Standard is
type Boolean is (False, True);
type Integer is range -2147483648 .. 2147483647;
subtype Natural is Integer range 0 .. 2147483647;
subtype Positive is Integer range 1 .. 2147483647;
end Standard;
";

const TEXT_IO: &[u8] = b"package Ada.Text_IO is
procedure Put (Item : String);
procedure Put_Line (Item : String);
procedure New_Line;
end Ada.Text_IO;
";

const REAL_TIME: &[u8] = b"package Ada.Real_Time is
type Time is private;
type Time_Span is private;
function Clock return Time;
function Milliseconds (MS : Integer) return Time_Span;
end Ada.Real_Time;
";

/// The source of a predefined unit that is named so, in lower case.
pub fn predefined_text(unit: &[u8]) -> Option<&'static [u8]> {
    if is_same(unit, b"standard") {
        Some(STANDARD)
    } else if is_same(unit, b"ada.text_io") {
        Some(TEXT_IO)
    } else if is_same(unit, b"ada.real_time") {
        Some(REAL_TIME)
    } else {
        None
    }
}

/// Whether a predefined unit is named so, in lower case.
pub fn is_predefined(unit: &[u8]) -> bool {
    predefined_text(unit).is_some()
}
