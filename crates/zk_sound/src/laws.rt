// What typed programs promise of their values.
ghost use Rattle.zk_sound.specs.Laws.{ActionsTakeTypes, BodiesAreDeclared, ExpiriesKeepTypes, ExpressionsKeepTypes, HandlersKeepTypes, HeadsAreKnown, InitialsKeepTypes, LogsAreTold, PrimitivesTakeTypes, RulesGiveForms, RulesGiveStatements, RunsKeepTypes, RunsWriteRowsThatFit, ShownRowsFit, StatementsKeepTypes, TextsTellRows, TypedFieldsAgree, TypedFieldsBegin, TypedFunctionsFit, TypedHandlersFit, TypedHandlersKeepTypes, TypedProgramsFit, TypedRunsKeepTypes, TypedTablesStay, TypedTimesRise, TypedValuesFit, TypesAreTold, ValuesHaveTypes};

use zk_agenda::{sparing_tables_stay, time_rises};
use zk_ascii::equal_texts;

/// No operation meets a value of another type: with operands of the types that it takes, in a world that is of
/// its types, a primitive gives a value of its own type, and a primitive or an action is at fault for nothing
/// but what its operands' values are. There is nothing to run.
pub fn operations_take_types()
    ensures primitives { PrimitivesTakeTypes }
    ensures actions { ActionsTakeTypes }
{}

/// Forms that have types give values of these types, and keep the types of the world and of the names, however
/// they end. There is nothing to run.
pub fn forms_keep_types()
    ensures expressions { ExpressionsKeepTypes }
    ensures statements { StatementsKeepTypes }
{}

/// What a run does body by body keeps the types of the world, whatever the budget, and so does the whole run.
/// There is nothing to run.
pub fn bodies_keep_types()
    ensures handlers { HandlersKeepTypes }
    ensures initials { InitialsKeepTypes }
    ensures expiries { ExpiriesKeepTypes }
    ensures runs { RunsKeepTypes }
{}

/// The value of an expression has the type that the rules give the expression, where the program says what its
/// scripts say, and what the expression says of logs fits them. There is nothing to run.
pub fn values_have_types()
    // The rules make forms that have types.
    ensures forms { RulesGiveForms }
    ensures bodies { RulesGiveStatements }
    ensures values { ValuesHaveTypes }
{}

/// Each row that a run writes has cells that fit their columns: no value, or a set or a vector exactly where the
/// column's type is one, of strings exactly where it says so, and of any other value a text that stands for
/// nothing else in a log. So rows of the same columns have equal texts only where they are equal. There is
/// nothing to run.
pub fn rows_fit_their_columns()
    ensures runs { RunsWriteRowsThatFit }
    ensures shown { ShownRowsFit }
    ensures texts { TextsTellRows }
{
    equal_texts();
}

/// What is broken is told: where scripts break no rule that is told, no type in them is broken, each log that has a
/// stream has a record type that is known, and each body has the parameters and the result of its declaration. There
/// is nothing to run.
pub fn broken_is_told()
    ensures types { TypesAreTold }
    ensures logs { LogsAreTold }
    ensures heads { HeadsAreKnown }
    ensures bodies { BodiesAreDeclared }
{}

/// The bodies, initial values and fields of the program of scripts that break no rule have the types of their
/// declarations, where the program says what its scripts say and what they say of logs fits. There is nothing to
/// run.
pub fn typed_bodies_fit()
    ensures functions { TypedFunctionsFit }
    ensures handlers { TypedHandlersFit }
    ensures values { TypedValuesFit }
    ensures fields { TypedFieldsAgree }
    ensures begins { TypedFieldsBegin }
    ensures programs { TypedProgramsFit }
{}

/// The bodies of the program of scripts that break no rule keep the types of the world, however they end, as does its
/// whole run, where the program says what its scripts say. There is nothing to run.
pub fn typed_programs_keep_types()
    ensures handlers { TypedHandlersKeepTypes }
    ensures runs { TypedRunsKeepTypes }
{}

/// A typed program gives no global whose entries expire another value, so that these keep their tables; and so
/// network time never falls over its run, and of two turns the one that is due earlier comes first. There is
/// nothing to run.
pub fn typed_tables_stay()
    ensures tables { TypedTablesStay }
    ensures times { TypedTimesRise }
{
    sparing_tables_stay();
    time_rises();
}
