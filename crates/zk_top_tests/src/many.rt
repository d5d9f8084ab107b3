use crate::case::{Case, comes_out};
use crate::runs::HEADER;
use std::alloc::Global;
use std::test::Fail;
use zk_base::Mem;

/// How many there are of each: more than a byte counts.
const MANY: usize = 300;

/// A global, a function, a record type, an event with its handler, and a handler of the beginning that asks for
/// all of them, of the number `#`.
const DECLARATIONS: &str = "\
    global g# = #; function f#(): count { return g#; } type R#: record { r#: count; }; \
    global e#: event(k: count); event e#(k: count) { print k; } \
    event zeek_init() { local r = R#($r#=1); event e#(f#() + r$r#); }\n";

/// The script, what it says, and what it has of each of its wide parts.
#[derive(Drop)]
struct Script {
    text: String,
    said: String,
    words: String,
    fields: String,
    locals: String,
}

/// Adds a text with a number in the place of each `#`.
fn add(alloc: Global, text: &mut String, shape: &str, number: usize) -> Result<(), Mem> {
    let number = format!(in alloc; "{number}")?;
    let line = shape.replace(alloc, '#', &number)?;
    text.push_str(&line)?;
    Ok(())
}

impl Script {
    fn new(alloc: Global) -> Script {
        Script {
            text: String::new(alloc),
            said: String::new(alloc),
            words: String::new(alloc),
            fields: String::new(alloc),
            locals: String::new(alloc),
        }
    }

    /// Adds the declarations of this number and what they say, and a word, a field and a local.
    fn add_parts(&mut self, alloc: Global, n: usize) -> Result<(), Mem> {
        add(alloc, &mut self.text, DECLARATIONS, n)?;
        add(alloc, &mut self.said, "#\n", n.saturating_add(1))?;
        add(alloc, &mut self.words, "W#, ", n)?;
        add(alloc, &mut self.fields, "w#: count &default=#; ", n)?;
        add(alloc, &mut self.locals, "local l# = #; ", n)
    }

    /// Adds the wide parts, and what asks for the last of each.
    fn finish(&mut self) -> Result<(), Mem> {
        self.text.push_str("type E: enum { ")?;
        self.text.push_str(&self.words)?;
        self.text.push_str("}; type Wide: record { ")?;
        self.text.push_str(&self.fields)?;
        self.text.push_str("}; event zeek_done() { ")?;
        self.text.push_str(&self.locals)?;
        self.text
            .push_str("local wide = Wide(); print W299, wide$w299, l299; }")?;
        self.said.push_str("W299, 299, 299\n")?;
        Ok(())
    }
}

/// A script with many of each.
fn wide_script(alloc: Global) -> Result<Box<Script>, Mem> {
    let mut script = Box::new(alloc, Script::new(alloc))?;
    for n in 0..MANY {
        script.add_parts(alloc, n)?;
    }
    script.finish()?;
    Ok(script)
}

/// No number is refused for want of memory where a byte ends.
#[test]
fn there_may_be_many_of_each(rt: HostRuntime) -> Result<(), Fail> {
    let alloc = rt.alloc();
    let script = wide_script(alloc)?;
    let case = Case {
        line: b"run -b -r c.pcap s.zeek",
        inputs: &[(b"c.pcap", &HEADER), (b"s.zeek", script.text.as_bytes())],
        status: 0,
        said: script.said.as_bytes(),
        complained: b"",
        files: &[],
    };
    comes_out(alloc, &case, MANY)
}
