// What a source is made of: E001 to E101.

/// The pages, in the form of `PAGES`.
pub const LEXEMES: &str =
    "%1|ARM 2.1, 2.2|Each character begins a lexeme of Ada, or is in a string or a comment. Letters are those of ASCII.%-- main.adb
procedure Main is
   A : array (1 .. 3) of Integer := (1, 2, 3);
begin
   A[1] := 4;
end Main;
%-- main.adb
procedure Main is
   A : array (1 .. 3) of Integer := (1, 2, 3);
begin
   A (1) := 4;
end Main;
%2|ARM 2.3|In an identifier underscores come one at a time, and none is last.%-- main.adb
procedure Main is
   Line__Count : Integer := 0;
begin
   Line__Count := 1;
end Main;
%-- main.adb
procedure Main is
   Line_Count : Integer := 0;
begin
   Line_Count := 1;
end Main;
%3|ARM 2.4|A number is digits, with single underscores between them; or BASE#DIGITS# with a base from 2 to 16; or either with an exponent that isn't negative. Real literals aren't in this subset.%-- main.adb
procedure Main is
   Rate : constant := 0.25;
begin
   null;
end Main;
%-- main.adb
procedure Main is
   Rate_In_Thousandths : constant := 250;
begin
   null;
end Main;
%4|ARM 2.4|The largest number that a source may have is 2 ** 63 - 1.%-- main.adb
procedure Main is
   Big : constant := 9223372036854775808;
begin
   null;
end Main;
%-- main.adb
procedure Main is
   Big : constant := 9223372036854775807;
begin
   null;
end Main;
%5|ARM 2.6|A string is on one line, and has the characters from blank to ~; a quote in it is written twice.%-- main.adb
with Ada.Text_IO;
procedure Main is
begin
   Ada.Text_IO.Put_Line (\"one
      line\");
end Main;
%-- main.adb
with Ada.Text_IO;
procedure Main is
begin
   Ada.Text_IO.Put_Line (\"one \"
      & \"line\");
end Main;
%6|ARM 2.2, 2.3|An identifier has at most 200 characters.%-- main.adb
procedure Main is
   Abbbbbbbbbbbbbbbbbbbbbbbbbbbbbbbbbbbbbbbbbbbbbbbbbbbbbbbbbbbbbbbbbbbbbbbbbbbbbbbbbbbbbbbbbbbbbbbbbbbbbbbbbbbbbbbbbbbbbbbbbbbbbbbbbbbbbbbbbbbbbbbbbbbbbbbbbbbbbbbbbbbbbbbbbbbbbbbbbbbbbbbbbbbbbbbbbbbbbbbb : Integer;
begin
   null;
end Main;
%-- main.adb
procedure Main is
   Ab : Integer;
begin
   null;
end Main;
%101|ARM 2 to 10|The lexemes are no compilation unit. The place is the first lexeme that can't go on from those before it.%-- main.adb
procedure Main is
   type Point is record
      X, Y : Integer := 0;
   end record;
begin
   null;
end Main;
%-- main.adb
procedure Main is
   type Point is record
      X, Y : Integer;
   end record;
begin
   null;
end Main;
";
