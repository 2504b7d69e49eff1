// Statements and tasks: E501 to E604.

/// The pages, in the form of `PAGES`.
pub const STATEMENTS: &str =
    "%501|ARM 6.5|In a function a return statement has a value, elsewhere none.%-- main.adb
procedure Main is
begin
   return 1;
end Main;
%-- main.adb
procedure Main is
begin
   return;
end Main;
%502|ARM 5.7|An exit statement is in a loop, of the name that it gives.%-- main.adb
procedure Main is
begin
   exit;
end Main;
%-- main.adb
procedure Main is
begin
   loop
      exit;
   end loop;
end Main;
%503|ARM 5.4|Each value of a case statement's selector is chosen by just one alternative; others takes what is left.%-- main.adb
procedure Main is
   type Light is (Red, Amber, Green);
   L : Light := Red;
begin
   case L is
      when Red => null;
      when Amber => null;
   end case;
end Main;
%-- main.adb
procedure Main is
   type Light is (Red, Amber, Green);
   L : Light := Red;
begin
   case L is
      when Red => null;
      when others => null;
   end case;
end Main;
%504|ARM 6.5(4)|The body of a function has a return statement.%-- main.adb
procedure Main is
   function Four return Integer is
   begin
      null;
   end Four;
begin
   null;
end Main;
%-- main.adb
procedure Main is
   function Four return Integer is
   begin
      return 4;
   end Four;
begin
   null;
end Main;
%601|ARM D.7, D.13|Tasks and protected objects are declared in library packages: they are there from the start of the program to its end (the Ravenscar profile).%-- main.adb
procedure Main is
   task Worker;
   task body Worker is
   begin
      null;
   end Worker;
begin
   null;
end Main;
%-- main.adb
with Workers;
procedure Main is
begin
   null;
end Main;
-- workers.ads
package Workers is
   task Worker;
end Workers;
-- workers.adb
package body Workers is
   task body Worker is
   begin
      null;
   end Worker;
end Workers;
%602|ARM D.7, D.13|A protected object has at most one entry (the Ravenscar profile).%-- main.adb
with Workers;
procedure Main is
begin
   null;
end Main;
-- workers.ads
package Workers is
   protected Gate is
      entry Enter;
      entry Leave;
   private
      Is_Open : Boolean := True;
   end Gate;
end Workers;
-- workers.adb
package body Workers is
   protected body Gate is
      entry Enter when Is_Open is
      begin
         null;
      end Enter;
      entry Leave when Is_Open is
      begin
         null;
      end Leave;
   end Gate;
end Workers;
%-- main.adb
with Workers;
procedure Main is
begin
   null;
end Main;
-- workers.ads
package Workers is
   protected Gate is
      entry Enter;
      procedure Leave;
   private
      Is_Open : Boolean := True;
   end Gate;
end Workers;
-- workers.adb
package body Workers is
   protected body Gate is
      entry Enter when Is_Open is
      begin
         Is_Open := False;
      end Enter;
      procedure Leave is
      begin
         Is_Open := True;
      end Leave;
   end Gate;
end Workers;
%603|ARM D.7|A barrier is the name of a Boolean component of its protected object (Simple_Barriers).%-- main.adb
with Workers;
procedure Main is
begin
   null;
end Main;
-- workers.ads
package Workers is
   protected Gate is
      entry Enter;
      procedure Leave;
   private
      Count : Integer := 1;
      Is_Open : Boolean := True;
   end Gate;
end Workers;
-- workers.adb
package body Workers is
   protected body Gate is
      entry Enter when Count > 0 is
      begin
         Count := Count - 1;
         Is_Open := Count > 0;
      end Enter;
      procedure Leave is
      begin
         Count := Count + 1;
         Is_Open := True;
      end Leave;
   end Gate;
end Workers;
%-- main.adb
with Workers;
procedure Main is
begin
   null;
end Main;
-- workers.ads
package Workers is
   protected Gate is
      entry Enter;
      procedure Leave;
   private
      Count : Integer := 1;
      Is_Open : Boolean := True;
   end Gate;
end Workers;
-- workers.adb
package body Workers is
   protected body Gate is
      entry Enter when Is_Open is
      begin
         Count := Count - 1;
         Is_Open := Count > 0;
      end Enter;
      procedure Leave is
      begin
         Count := Count + 1;
         Is_Open := True;
      end Leave;
   end Gate;
end Workers;
%604|ARM 9.5.1|An operation of a protected object isn't called from the object's own bodies.%-- main.adb
with Workers;
procedure Main is
begin
   null;
end Main;
-- workers.ads
package Workers is
   protected Gate is
      procedure Open;
      procedure Reset;
   private
      Count : Integer := 0;
   end Gate;
end Workers;
-- workers.adb
package body Workers is
   protected body Gate is
      procedure Open is
      begin
         Count := Count + 1;
      end Open;
      procedure Reset is
      begin
         Count := 0;
         Open;
      end Reset;
   end Gate;
end Workers;
%-- main.adb
with Workers;
procedure Main is
begin
   null;
end Main;
-- workers.ads
package Workers is
   protected Gate is
      procedure Open;
      procedure Reset;
   private
      Count : Integer := 0;
   end Gate;
end Workers;
-- workers.adb
package body Workers is
   protected body Gate is
      procedure Open is
      begin
         Count := Count + 1;
      end Open;
      procedure Reset is
      begin
         Count := 0;
         Count := Count + 1;
      end Reset;
   end Gate;
end Workers;
";
