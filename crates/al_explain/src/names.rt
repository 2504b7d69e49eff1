// Names and expressions: E401 to E406.

/// The pages, in the form of `PAGES`.
pub const NAMES: &str =
    "%401|ARM 8.3, 8.4|A name is visible where a declaration of it is in a region round the place and before it, or in a package that a use clause opens; else by its package's name, P.X.%-- main.adb
with Counter;
procedure Main is
begin
   Count := 1;
end Main;
-- counter.ads
package Counter is
   Count : Integer := 0;
end Counter;
%-- main.adb
with Counter;
procedure Main is
begin
   Counter.Count := 1;
end Main;
-- counter.ads
package Counter is
   Count : Integer := 0;
end Counter;
%402|ARM 8.6, 3, 4|The types fit: each operand, parameter and value is of the type that is wanted there. Ada converts nothing by itself.%-- main.adb
procedure Main is
   X : Integer := 0;
   B : Boolean := False;
begin
   X := B;
end Main;
%-- main.adb
procedure Main is
   X : Integer := 0;
   B : Boolean := False;
begin
   X := Boolean'Pos (B);
end Main;
%403|ARM 8.6(30)|Just one reading of an expression fits. Where two do, a qualified expression chooses.%-- main.adb
procedure Main is
   type One is (Red, Blue);
   type Two is (Red, Green);
   B : Boolean;
begin
   B := Red = Red;
end Main;
%-- main.adb
procedure Main is
   type One is (Red, Blue);
   type Two is (Red, Green);
   B : Boolean;
begin
   B := One'(Red) = Red;
end Main;
%404|ARM 4, 5, 6|A name denotes what is wanted there: a type in a declaration, a procedure in a call.%-- main.adb
procedure Main is
   X : Integer := 0;
   Y : X;
begin
   null;
end Main;
%-- main.adb
procedure Main is
   X : Integer := 0;
   Y : Integer;
begin
   null;
end Main;
%405|ARM 4.9(34)|A static expression has a value: nothing is divided by zero, and the value lies in its type.%-- main.adb
procedure Main is
   X : constant Integer := 1 / 0;
begin
   null;
end Main;
%-- main.adb
procedure Main is
   X : constant Integer := 1 / 1;
begin
   null;
end Main;
%406|ARM 5.2, 6.4.1(5)|What is assigned, and what is passed for an out or in out parameter, is a variable.%-- main.adb
procedure Main is
   Size : constant Integer := 4;
begin
   Size := 5;
end Main;
%-- main.adb
procedure Main is
   Size : Integer := 4;
begin
   Size := 5;
end Main;
";
