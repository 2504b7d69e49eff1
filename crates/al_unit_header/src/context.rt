// The names in context clauses.
ghost use Rattle.std.specs.Prelude.{◌≡◌, ◌++◌, map, IfOk, OnOk};
ghost use Rattle.std.specs.List.{flat_map};
ghost use Rattle.std.specs.Option.{option_map};
ghost use Rattle.al_tree.specs.DeclarationViews.{compound_model, compounds_model, pragma_arguments_model};
ghost use Rattle.al_tree.specs.UnitViews.{context_model};
ghost use Rattle.al_unit_graph.specs.Views.{mention_model};
ghost use Rattle.al_unit_header.specs.Units.{context_mentions, dotted, mention_of, names_in, arguments_in, pragma_names};

use crate::names::{dotted, mention_of};
use al_base::{Name, NoMemory};
use al_tree::{CompoundName, CompoundNames, ContextItem, PragmaArguments};
use al_unit_graph::Mention;
use std::alloc::Global;

/// The names in the with clauses, in their order (ARM 10.1.2(4)).
pub(crate) fn mentions(alloc: Global, context: &[ContextItem]) -> Result<Vec<Mention>, NoMemory>
    ensures { IfOk result (λ mentions. map mention_model mentions.items ≡ map mention_of (flat_map context_mentions (map context_model context.now))) }
{
    let mut mentions = Vec::new(alloc);
    for item in context {
        add_mentions(alloc, item, &mut mentions)?;
    }
    Ok(mentions)
}

/// Adds the names that an item of a context clause has as a with clause.
fn add_mentions(
    alloc: Global,
    item: &ContextItem,
    mentions: &mut Vec<Mention>,
) -> Result<(), NoMemory>
    ensures { OnOk result (map mention_model mentions.new.items ≡ map mention_model mentions.old.items ++ map mention_of (context_mentions (context_model item.now))) }
{
    match item {
        ContextItem::With(names) => add_names(alloc, names, mentions),
        ContextItem::Use(_) => Ok(()),
        ContextItem::Pragma(_) => Ok(()),
    }
}

/// Adds the names of a with clause.
fn add_names(
    alloc: Global,
    names: &CompoundNames,
    mentions: &mut Vec<Mention>,
) -> Result<(), NoMemory>
    ensures { OnOk result (map mention_model mentions.new.items ≡ map mention_model mentions.old.items ++ map mention_of (names_in (compounds_model names.now))) }
{
    mentions.push(mention_of(alloc, &names.first)?)?;
    add_others(alloc, names.others.as_slice(), mentions)
}

/// Adds these names.
fn add_others(
    alloc: Global,
    names: &[CompoundName],
    mentions: &mut Vec<Mention>,
) -> Result<(), NoMemory>
    ensures { OnOk result (map mention_model mentions.new.items ≡ map mention_model mentions.old.items ++ map mention_of (map compound_model names.now)) }
{
    for name in names {
        mentions.push(mention_of(alloc, name)?)?;
    }
    Ok(())
}

/// The names in the pragmas of this name, in their order (ARM 10.2.1(20)).
pub(crate) fn named_in_pragmas(
    alloc: Global,
    context: &[ContextItem],
    word: &[u8],
) -> Result<Vec<Name>, NoMemory>
    ensures { IfOk result (λ names. names.items ≡ flat_map (pragma_names word.now) (map context_model context.now)) }
{
    let mut names = Vec::new(alloc);
    for item in context {
        add_pragma_names(alloc, item, word, &mut names)?;
    }
    Ok(names)
}

/// Adds the names that an item of a context clause has as a pragma of this name.
fn add_pragma_names(
    alloc: Global,
    item: &ContextItem,
    word: &[u8],
    names: &mut Vec<Name>,
) -> Result<(), NoMemory>
    ensures { OnOk result (names.new.items ≡ names.old.items ++ pragma_names word.now (context_model item.now)) }
{
    match item {
        ContextItem::With(_) => Ok(()),
        ContextItem::Use(_) => Ok(()),
        ContextItem::Pragma(pragma) => {
            if pragma.name.name.as_slice() == word {
                add_arguments(alloc, &pragma.arguments, names)
            } else {
                Ok(())
            }
        }
    }
}

/// Adds the arguments of a pragma.
fn add_arguments(
    alloc: Global,
    arguments: &Option<PragmaArguments>,
    names: &mut Vec<Name>,
) -> Result<(), NoMemory>
    ensures { OnOk result (names.new.items ≡ names.old.items ++ map dotted (arguments_in (option_map pragma_arguments_model arguments.now))) }
{
    match arguments {
        None => Ok(()),
        Some(arguments) => {
            names.push(dotted(alloc, &arguments.names.first)?)?;
            add_dotted(alloc, arguments.names.others.as_slice(), names)
        }
    }
}

/// Adds these names.
fn add_dotted(
    alloc: Global,
    compounds: &[CompoundName],
    names: &mut Vec<Name>,
) -> Result<(), NoMemory>
    ensures { OnOk result (names.new.items ≡ names.old.items ++ map dotted (map compound_model compounds.now)) }
{
    for compound in compounds {
        names.push(dotted(alloc, compound)?)?;
    }
    Ok(())
}
