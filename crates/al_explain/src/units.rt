// Units and their dependences: E201 to E209.

/// The pages, in the form of `PAGES`.
pub const UNITS: &str =
    "%201|ARM 10.1.4|A file holds the unit that its name is of: Foo.Bar is in foo-bar.ads, its body in foo-bar.adb, its subunit Part in foo-bar-part.adb.%-- main.adb
procedure Mian is
begin
   null;
end Mian;
%-- main.adb
procedure Main is
begin
   null;
end Main;
%202|ARM 10.1.2, 10.1.3, 7.2|A unit that a with clause names has a declaration, a subunit has a parent body, and a package body has a declaration.%-- main.adb
with Counter;
procedure Main is
begin
   null;
end Main;
%-- main.adb
with Counter;
procedure Main is
begin
   null;
end Main;
-- counter.ads
package Counter is
   Count : Integer := 0;
end Counter;
%203|ARM 10.1.1(26)|A unit doesn't depend on itself, by way of others either.%-- main.adb
with One;
procedure Main is
begin
   null;
end Main;
-- one.ads
with Two;
package One is
end One;
-- two.ads
with One;
package Two is
end Two;
%-- main.adb
with One;
procedure Main is
begin
   null;
end Main;
-- one.ads
with Two;
package One is
end One;
-- two.ads
package Two is
end Two;
%204|ARM 10.1.2(8)|A private child is named by bodies of its parent's family and by its private units alone.%-- main.adb
with Top.Inner;
procedure Main is
begin
   null;
end Main;
-- top.ads
package Top is
end Top;
-- top-inner.ads
private package Top.Inner is
end Top.Inner;
%-- main.adb
with Top.Inner;
procedure Main is
begin
   null;
end Main;
-- top.ads
package Top is
end Top;
-- top-inner.ads
package Top.Inner is
end Top.Inner;
%205|ARM 10.1.1(10)|The parent of a child unit is a package that is there.%-- main.adb
with Top.Inner;
procedure Main is
begin
   null;
end Main;
-- top-inner.ads
package Top.Inner is
end Top.Inner;
%-- main.adb
with Top.Inner;
procedure Main is
begin
   null;
end Main;
-- top.ads
package Top is
end Top;
-- top-inner.ads
package Top.Inner is
end Top.Inner;
%206|ARM 10.1.3(8)|The parent body of a subunit has a stub of its name.%-- main.adb
procedure Main is
begin
   null;
end Main;
-- main-part.adb
separate (Main)
procedure Part is
begin
   null;
end Part;
%-- main.adb
procedure Main is
   procedure Part is separate;
begin
   Part;
end Main;
-- main-part.adb
separate (Main)
procedure Part is
begin
   null;
end Part;
%207|ARM A.2(4)|Standard, Ada and the children of Ada are the language's own units.%-- main.adb
procedure Main is
begin
   null;
end Main;
-- ada-tools.ads
package Ada.Tools is
end Ada.Tools;
%-- main.adb
procedure Main is
begin
   null;
end Main;
-- tools.ads
package Tools is
end Tools;
%208|ARM 10.1.4|A unit is checked once all that it depends on is right. Mend those; this one may then be right too.%-- main.adb
with Counter;
procedure Main is
begin
   null;
end Main;
-- counter.ads
package Counter is
   Count : Intger := 0;
end Counter;
%-- main.adb
with Counter;
procedure Main is
begin
   null;
end Main;
-- counter.ads
package Counter is
   Count : Integer := 0;
end Counter;
%209|ARM 7.2(4), 10.1.4|A body has a declaration of its kind that needs one.%-- main.adb
procedure Main is
begin
   null;
end Main;
-- tools.ads
package Tools is
   Size : constant := 4;
end Tools;
-- tools.adb
package body Tools is
end Tools;
%-- main.adb
procedure Main is
begin
   null;
end Main;
-- tools.ads
package Tools is
   procedure Start;
end Tools;
-- tools.adb
package body Tools is
   procedure Start is
   begin
      null;
   end Start;
end Tools;
";
