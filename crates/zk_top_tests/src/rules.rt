use crate::naming::{RECURSIVE, TWICE, UNKNOWN};
use crate::right::{ACCEPTED, BLIND, FILES, NOT_BLIND};
use crate::typing::{WRONG_OPERANDS, WRONG_VALUES};
use crate::using::{ARGUMENTS, ATTRIBUTE, BREAK, FIELD, FIXED_GLOBAL, FORMAT, NOT_CONST, RETURN};
use std::alloc::Global;
use std::test::Fail;
use zk_blind::blind;
use zk_check::{CheckFault, check};
use zk_load::read_texts;
use zk_names::names;
use zk_outcome::Found;
use zk_scripts::default_scripts;
use zk_typed::Rule;
use zk_typed::script::Program;

/// What a check of scripts gives, by their names and texts.
fn checked(alloc: Global, texts: &[(&[u8], &[u8])]) -> Result<Result<Program, CheckFault>, Fail> {
    match read_texts(alloc, texts)? {
        Found::Accepted(files) => {
            let files = files.as_slice();
            Ok(check(alloc, files, names(alloc, files)?))
        }
        Found::Refused(_) => Err(Fail::from("no tree")),
    }
}

/// What a check of scripts tells, where they break a rule.
fn told(alloc: Global, texts: &[(&[u8], &[u8])]) -> Result<Option<CheckFault>, Fail> {
    match checked(alloc, texts)? {
        Ok(_) => Ok(None),
        Err(fault) => Ok(Some(fault)),
    }
}

/// Whether scripts, which break no rule, are blind.
fn is_blind(alloc: Global, texts: &[(&[u8], &[u8])]) -> Result<bool, Fail> {
    match checked(alloc, texts)? {
        Ok(program) => Ok(blind(&program)),
        Err(_) => Err(Fail::from("a broken rule")),
    }
}

/// That a rule is broken in the first file.
fn fault(rule: Rule, place: u64) -> CheckFault {
    let file = 0;
    match rule {
        Rule::Unknown => CheckFault::Unknown { file, place },
        Rule::Twice => CheckFault::Twice { file, place },
        Rule::WrongType => CheckFault::WrongType { file, place },
        Rule::Field => CheckFault::Field { file, place },
        Rule::Recursive => CheckFault::Recursive { file, place },
        Rule::NotConst => CheckFault::NotConst { file, place },
        Rule::FixedGlobal => CheckFault::FixedGlobal { file, place },
        Rule::Arguments => CheckFault::Arguments { file, place },
        Rule::Return => CheckFault::Return { file, place },
        Rule::Break => CheckFault::Break { file, place },
        Rule::Attribute => CheckFault::Attribute { file, place },
        Rule::Format => CheckFault::Format { file, place },
    }
}

/// That a check of scripts tells this of them, or nothing. They are those of a row.
fn tells(
    alloc: Global,
    texts: &[(&[u8], &[u8])],
    wanted: Option<CheckFault>,
    row: &str,
) -> Result<(), Fail> {
    let found = told(alloc, texts)?;
    if found == wanted {
        Ok(())
    } else {
        Err(Fail::new(format_args!("{found:?} of {row}")))
    }
}

/// That each of the scripts of a text breaks a rule first, and at its place.
fn each_breaks(alloc: Global, rule: Rule, rows: &str) -> Result<(), Fail> {
    for row in rows.lines() {
        if row.starts_with('#') {
            continue;
        }
        let Some((place, text)) = row.split_once(' ') else {
            return Err(Fail::new(row));
        };
        let wanted = fault(rule, place.parse::<u64>()?);
        tells(alloc, &[(b"s", text.as_bytes())], Some(wanted), row)?;
    }
    Ok(())
}

/// That each of the scripts of a text breaks no rule.
fn each_is_accepted(alloc: Global, rows: &str) -> Result<(), Fail> {
    for row in rows.lines() {
        if !row.starts_with('#') {
            tells(alloc, &[(b"s", row.as_bytes())], None, row)?;
        }
    }
    Ok(())
}

/// That each of the scripts of a text, which break no rule, is blind, or that none is.
fn each_is_blind(alloc: Global, wanted: bool, rows: &str) -> Result<(), Fail> {
    for row in rows.lines() {
        if is_blind(alloc, &[(b"s", row.as_bytes())])? != wanted {
            return Err(Fail::new(row));
        }
    }
    Ok(())
}

#[test]
fn a_broken_rule_of_names_is_told_at_its_place(rt: HostRuntime) -> Result<(), Fail> {
    let alloc = rt.alloc();
    each_breaks(alloc, Rule::Unknown, UNKNOWN)?;
    each_breaks(alloc, Rule::Twice, TWICE)?;
    each_breaks(alloc, Rule::Field, FIELD)?;
    each_breaks(alloc, Rule::Recursive, RECURSIVE)?;
    each_breaks(alloc, Rule::NotConst, NOT_CONST)?;
    each_breaks(alloc, Rule::FixedGlobal, FIXED_GLOBAL)
}

#[test]
fn a_value_of_a_wrong_type_is_told_at_its_place(rt: HostRuntime) -> Result<(), Fail> {
    each_breaks(rt.alloc(), Rule::WrongType, WRONG_VALUES)
}

#[test]
fn an_operand_of_a_wrong_type_is_told_at_its_place(rt: HostRuntime) -> Result<(), Fail> {
    each_breaks(rt.alloc(), Rule::WrongType, WRONG_OPERANDS)
}

#[test]
fn a_broken_rule_of_calls_and_declarations_is_told_at_its_place(
    rt: HostRuntime,
) -> Result<(), Fail> {
    let alloc = rt.alloc();
    each_breaks(alloc, Rule::Arguments, ARGUMENTS)?;
    each_breaks(alloc, Rule::Return, RETURN)?;
    each_breaks(alloc, Rule::Break, BREAK)?;
    each_breaks(alloc, Rule::Attribute, ATTRIBUTE)?;
    each_breaks(alloc, Rule::Format, FORMAT)
}

/// A chain of types, each made of the one before: `type V1: BEFOREV0BEHIND; type V2: BEFOREV1BEHIND; ..`.
fn chain(alloc: Global, many: usize, before: &str, behind: &str) -> Result<Vec<u8>, Fail> {
    let mut text = Vec::from_slice(alloc, b"type V0: count;".as_slice())?;
    for n in 0..many {
        let line = format!(in alloc; " type V{}: {before}V{n}{behind};", n + 1)?;
        text.extend_from_slice(line.as_bytes())?;
    }
    Ok(text)
}

/// A type nests 200 deep.
fn nests(alloc: Global) -> Result<(), Fail> {
    let deepest = chain(alloc, 199, "record { f: ", "; }")?;
    tells(alloc, &[(b"s", &deepest)], None, "a chain of 199")?;
    let deeper = chain(alloc, 200, "record { f: ", "; }")?;
    let Some(place) = deeper.len().checked_sub("record { f: V199; };".len()) else {
        return Err(Fail::from("a short chain"));
    };
    let wanted = fault(Rule::Recursive, place as u64);
    tells(alloc, &[(b"s", &deeper)], Some(wanted), "a chain of 200")
}

#[test]
fn scripts_that_break_no_rule_are_accepted(rt: HostRuntime) -> Result<(), Fail> {
    let alloc = rt.alloc();
    each_is_accepted(alloc, ACCEPTED)?;
    nests(alloc)?;
    // A name that is followed is no part.
    let named = chain(alloc, 300, "", "")?;
    tells(alloc, &[(b"s", &named)], None, "a chain of names")
}

#[test]
fn rules_are_told_in_load_order(rt: HostRuntime) -> Result<(), Fail> {
    for (first, second, wanted) in &FILES {
        let texts = [
            (b"s".as_slice(), first.as_bytes()),
            (b"t", second.as_bytes()),
        ];
        tells(rt.alloc(), &texts, *wanted, first)?;
    }
    Ok(())
}

/// What the handler of conn.log's rows begins with.
const FIRST: &[u8] = b"    local i = Info($ts=c$start_time";

/// A script with a question for packets before its line that begins so.
fn asking(alloc: Global, script: &[u8]) -> Result<Vec<u8>, Fail> {
    let mut asking = Vec::new(alloc);
    for line in script.split(|byte| *byte == b'\n') {
        if line.starts_with(FIRST) {
            asking.extend_from_slice(b"print c$orig$num_pkts;")?;
        }
        asking.extend_from_slice(line)?;
        asking.push(b'\n')?;
    }
    Ok(asking)
}

#[test]
fn programs_that_ask_nothing_of_packets_are_blind(rt: HostRuntime) -> Result<(), Fail> {
    let alloc = rt.alloc();
    each_is_blind(alloc, true, BLIND)?;
    each_is_blind(alloc, false, NOT_BLIND)?;
    assert!(rt; is_blind(alloc, default_scripts())?);
    Ok(())
}

#[test]
fn a_default_script_that_asks_of_packets_is_not_blind(rt: HostRuntime) -> Result<(), Fail> {
    let alloc = rt.alloc();
    let Some((name, conn)) = default_scripts().first() else {
        return Err(Fail::from("no script"));
    };
    assert!(rt; is_blind(alloc, &[(name, conn)])?);
    let asking = asking(alloc, conn)?;
    assert!(rt; asking.len() > conn.len() + 20);
    assert!(rt; !is_blind(alloc, &[(name, &asking)])?);
    Ok(())
}
