// The rules of the language, as data.

/// The rules of al_tree_syntax, a line each: a name, `=`, and what it has; the first is that of a compilation unit (ARM 10.1.1). `|` is
/// between alternatives, and an alternative without anything is empty. Words that name no rule are lexemes: ID, NUM and STR are
/// identifiers, numbers and strings, BAR is `|`, and the others are themselves.
pub const RULES: &str = "unit = contexts library_item
contexts = context contexts |
context = with names ; | use_clause | pragma_clause
use_clause = use type_opt names ;
type_opt = type |
pragma_clause = pragma ID pragma_arguments ;
pragma_arguments = ( names ) |
names = name more_names
more_names = , name more_names |
name = ID dots
dots = . ID dots |
library_item = private private_item | specification unit_rest | package package_unit | separate ( name ) specification is subprogram_body
private_item = specification ; | package package_declaration
unit_rest = ; | is subprogram_body
package_unit = package_declaration | body package_body
package_declaration = name is declarations private_part end name_opt ;
declarations = declaration declarations |
private_part = private declarations |
name_opt = name |
id_opt = ID |
package_body = name is items package_statements end name_opt ;
package_statements = begin statements |
subprogram_body = items begin statements end name_opt ;
block_body = items begin statements end id_opt ;
items = item items |
specification = procedure name formals | function name formals return name
formals = ( formal more_formals ) |
more_formals = ; formal more_formals |
formal = identifiers : in_opt out_opt name
in_opt = in |
out_opt = out |
identifiers = ID more_identifiers
more_identifiers = , ID more_identifiers |
common = object | type_declaration | subtype_declaration | use_clause | pragma_clause
declaration = common | specification ; | task task_declaration | protected protected_declaration
item = common | specification subprogram_rest | task task_item | protected protected_item
subprogram_rest = ; | is body_or_stub
body_or_stub = separate ; | subprogram_body
task_declaration = ID aspect ;
task_item = task_declaration | body ID is block_body
aspect = with ID => expression |
protected_declaration = ID aspect is operations protected_private end id_opt ;
operations = operation operations |
operation = specification ; | entry ID ;
protected_private = private elements |
elements = element elements |
element = identifiers : indication initial ;
initial = := expression |
protected_item = protected_declaration | body ID is operation_bodies end id_opt ;
operation_bodies = operation_body operation_bodies |
operation_body = specification is subprogram_body | entry ID when expression is block_body
object = identifiers : object_rest ;
object_rest = typed | constant constant_rest
constant_rest = := expression | typed
typed = type_form initial
type_form = indication | array_form
indication = name range_opt
range_opt = range_form |
range_form = range simple .. simple
array_form = array ( discrete_range ) of indication
type_declaration = type ID is type_definition ;
type_definition = range_form | null record | private | ( identifiers ) | array_form | record components end record
components = null ; | component more_components
more_components = component more_components |
component = identifiers : indication ;
subtype_declaration = subtype ID is indication ;
statements = statement more_statements
more_statements = statement more_statements |
statement = null ; | ID named | return expression_opt ; | exit id_opt when_opt ; | delay until expression ; | if_statement | case_statement | loop_statement | block_statement
expression_opt = expression |
when_opt = when expression |
named = : loop_or_block | name_parts initial ;
name_parts = . ID name_parts | ( expressions ) name_parts | ' designator name_parts |
designator = ID | range
loop_or_block = loop_statement | block_statement
loop_statement = loop loop_rest | while expression loop loop_rest | for ID in reverse_opt discrete_range loop loop_rest
reverse_opt = reverse |
loop_rest = statements end loop id_opt ;
block_statement = declare block_body | begin statements end id_opt ;
if_statement = if expression then statements elsifs else_opt end if ;
elsifs = elsif expression then statements elsifs |
else_opt = else statements |
case_statement = case expression is alternative alternatives end case ;
alternatives = alternative alternatives |
alternative = when choice choices => statements
choices = BAR choice choices |
choice = others | discrete_range
discrete_range = simple discrete_rest
discrete_rest = .. simple | range_form |
expressions = expression more_expressions
more_expressions = , expression more_expressions |
expression = relation logic
logic = and and_rest | or or_rest | xor relation xors |
and_rest = relation ands | then relation and_thens
ands = and relation ands |
and_thens = and then relation and_thens |
or_rest = relation ors | else relation or_elses
ors = or relation ors |
or_elses = or else relation or_elses |
xors = xor relation xors |
relation = simple relation_rest
relation_rest = relational simple | not in membership | in membership |
relational = = | /= | < | <= | > | >=
membership = simple membership_rest
membership_rest = .. simple |
simple = sign_opt term more_terms
sign_opt = + | - |
more_terms = adding term more_terms |
adding = + | - | &
term = factor more_factors
more_factors = multiplying factor more_factors |
multiplying = * | / | mod | rem
factor = primary power | abs primary | not primary
power = ** primary |
primary = NUM | STR | ID selections | ( parenthesized
selections = . ID selections | ( expressions ) selections | ' apostrophe_rest |
apostrophe_rest = designator selections | ( parenthesized
parenthesized = others => expression ) | expressions )
";
