// Declarations: E301 to E310.

/// The pages, in the form of `PAGES`.
pub const DECLARATIONS: &str =
    "%301|ARM 8.3(26)|Two declarations of one name in one region are overloaded subprograms or literals of other types, or one completes the other.%-- main.adb
procedure Main is
   X : Integer := 0;
   X : Boolean;
begin
   null;
end Main;
%-- main.adb
procedure Main is
   X : Integer := 0;
   Y : Boolean;
begin
   null;
end Main;
%302|ARM 3.11.1(6), 7.1|A subprogram, a task or a protected object that is declared has a body, a private type a full declaration.%-- main.adb
procedure Main is
   procedure Show;
begin
   null;
end Main;
%-- main.adb
procedure Main is
   procedure Show is
   begin
      null;
   end Show;
begin
   Show;
end Main;
%303|ARM 6.3.1|A body repeats its declaration: the names, the modes and the subtypes of the parameters.%-- main.adb
procedure Main is
   procedure Show (N : Integer);
   procedure Show (Number : Integer) is
   begin
      null;
   end Show;
begin
   Show (1);
end Main;
%-- main.adb
procedure Main is
   procedure Show (N : Integer);
   procedure Show (N : Integer) is
   begin
      null;
   end Show;
begin
   Show (1);
end Main;
%304|ARM 4.9|A static expression is computed when the program is compiled: it has literals, named numbers, constants with static values, attributes of static subtypes, and predefined operators.%-- main.adb
procedure Main is
   N : Integer := 4;
   type Index is range 1 .. N;
begin
   null;
end Main;
%-- main.adb
procedure Main is
   N : constant := 4;
   type Index is range 1 .. N;
begin
   null;
end Main;
%305|ARM 3.2.2, 3.5, D.1|The bounds of a constraint lie in its subtype, priorities are 0 to 30, and a value of a type has at most 4,096 words.%-- main.adb
procedure Main is
   subtype Small is Natural range -1 .. 9;
begin
   null;
end Main;
%-- main.adb
procedure Main is
   subtype Small is Natural range 0 .. 9;
begin
   null;
end Main;
%306|ARM 6.1, 10.1.3|A stub is among the declarations of a unit's body; a dotted name is a library unit's; a function's parameters are of mode in.%-- main.adb
procedure Main is
   function Next (N : out Integer) return Integer is
   begin
      return 1;
   end Next;
begin
   null;
end Main;
%-- main.adb
procedure Main is
   procedure Next (N : out Integer) is
   begin
      N := 1;
   end Next;
begin
   null;
end Main;
%307|ARM 2.8, 10.2.1, D.13|The pragmas are Elaborate and Elaborate_All in a context clause, and Elaborate_Body in a package's declaration. What Profile (Ravenscar) asks for holds anyway.%-- main.adb
pragma Profile (Ravenscar);
procedure Main is
begin
   null;
end Main;
%-- main.adb
procedure Main is
begin
   null;
end Main;
%308|ARM 6.3, 7.1, 5.5|The name after end is that of what it ends.%-- main.adb
procedure Main is
begin
   null;
end Mian;
%-- main.adb
procedure Main is
begin
   null;
end Main;
%309|ARM 3.3.1|A constant has a value where it is declared; no constant here gets it later.%-- main.adb
procedure Main is
   Size : constant Integer;
begin
   null;
end Main;
%-- main.adb
procedure Main is
   Size : constant Integer := 4;
begin
   null;
end Main;
%310|ARM 3.11.1(8), 7.3(5), 13.14|A private type is complete from its full declaration on. Before that no object of it is declared.%-- main.adb
procedure Main is
begin
   null;
end Main;
-- cells.ads
package Cells is
   type Cell is private;
   First : Cell;
private
   type Cell is range 0 .. 9;
end Cells;
%-- main.adb
procedure Main is
begin
   null;
end Main;
-- cells.ads
package Cells is
   type Cell is private;
private
   type Cell is range 0 .. 9;
   First : Cell := 0;
end Cells;
";
