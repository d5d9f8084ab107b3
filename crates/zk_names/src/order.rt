ghost use Rattle.std.specs.Prelude.{◌≡◌, ◌++◌, flat_map, map, OnOk, IfOk, bytes_eq};
ghost use Rattle.std.specs.List.{position};
ghost use Rattle.zk_typed.specs.LoadOrder.{add, decl_lines, decls_of, enter, file_named, is_in, lines, load, load_order, one_line, walk_to};
ghost use Rattle.zk_scope.specs.Lent.{files_of, stated_lent};
ghost use Rattle.zk_names.specs.Lines.{found_of, line_of, lines_lent};

use std::alloc::Global;
use zk_base::{Bytes, Mem};
use zk_scope::{Home, Stated};
use zk_tree::{Decl, Tree};

/// A declaration, and whether an `export` encloses it.
#[derive(Clone, Copy)]
pub struct Line<'a> {
    pub exported: bool,
    pub decl: &'a Decl,
}

/// What was found so far: the files that have their place, the module of what follows, and the
/// declarations.
#[derive(Drop)]
pub struct Finding<'a> {
    pub placed: Vec<usize>,
    pub module_name: &'a [u8],
    pub stated: Vec<Stated<'a>>,
}

/// Adds the declarations in a declaration.
#[cycle(lines)]
fn decl_lines<'a>(exported: bool, decl: &'a Decl, lines: &mut Vec<Line<'a>>) -> Result<(), Mem>
    ensures { OnOk result (lines_lent lines.new.items ≡ lines_lent lines.old.items ++ decl_lines exported decl.now) }
{
    match decl {
        Decl::Export { place: _, decls } => {
            decls_lines(true, decls.as_slice(), lines)?;
            Ok(())
        }
        Decl::Module { .. }
        | Decl::Load { .. }
        | Decl::Variable { .. }
        | Decl::Redef { .. }
        | Decl::RedefEnum { .. }
        | Decl::RedefRecord { .. }
        | Decl::Type { .. }
        | Decl::Body { .. }
        | Decl::Function { .. } => {
            lines.push(Line { exported, decl })?;
            Ok(())
        }
    }
}

/// Adds the declarations in declarations.
#[cycle(lines)]
fn decls_lines<'a>(exported: bool, decls: &'a [Decl], lines: &mut Vec<Line<'a>>) -> Result<(), Mem>
    ensures { OnOk result (lines_lent lines.new.items ≡ lines_lent lines.old.items ++ flat_map (decl_lines exported) decls.now) }
{
    for decl in decls {
        decl_lines(exported, decl, lines)?;
    }
    Ok(())
}

/// The number of the first file of a name.
fn number_of(files: &[(Bytes, Tree)], name: &Bytes) -> Option<usize>
    ensures { result ≡ position (λ file. bytes_eq file.0 name.now) files.now }
{
    files.iter().position(|file| file.0 == *name)
}

/// The number of the first file of a name; a default script has none.
fn file_named(files: &[(Bytes, Tree)], name: &Bytes) -> Option<usize>
    ensures { result ≡ file_named name.now (files_of files.now) }
{
    if name.as_slice().starts_with(b"base/") {
        return None;
    }
    number_of(files, name)
}

/// Whether a file has its place.
fn is_placed(number: usize, placed: &[usize]) -> bool
    ensures { result ≡ is_in number placed.now }
{
    placed.iter().any(|other| *other == number)
}

/// The declarations of a file.
fn file_lines<'a>(
    alloc: Global,
    files: &'a [(Bytes, Tree)],
    file: usize,
    exported: bool,
) -> Result<Vec<Line<'a>>, Mem>
    ensures { IfOk result (λ found. lines_lent found.items ≡ lines exported (decls_of file (files_of files.now))) }
{
    let mut found = Vec::new(alloc);
    match files.get(file) {
        Some(entry) => {
            decls_lines(exported, entry.1.decls.as_slice(), &mut found)?;
            Ok(found)
        }
        None => Ok(found),
    }
}

/// Gives a file its place, and hands back the module from before.
fn enter<'a>(number: usize, found: &mut Finding<'a>) -> Result<&'a [u8], Mem>
    ensures entered { OnOk result (found_of found.new ≡ enter number (found_of found.old)) }
    ensures module { IfOk result (λ before. before.now ≡ found.old.module_name.now) }
{
    found.placed.push(number)?;
    let before = found.module_name;
    found.module_name = &[];
    Ok(before)
}

/// Adds what a file declares, to a depth of files within one another.
#[cycle(walk)]
fn walk<'a>(
    alloc: Global,
    depth: usize,
    files: &'a [(Bytes, Tree)],
    file: usize,
    exported: bool,
    found: &mut Finding<'a>,
) -> Result<(), Mem>
    ensures { OnOk result (found_of found.new ≡ walk_to depth (files_of files.now) file exported (found_of found.old)) }
{
    if depth == 0 {
        return Ok(());
    }
    let lines = file_lines(alloc, files, file, exported)?;
    for line in &lines {
        one_line(alloc, depth - 1, files, file, *line, found)?;
    }
    Ok(())
}

/// Adds what a declaration declares.
#[cycle(walk)]
fn one_line<'a>(
    alloc: Global,
    depth: usize,
    files: &'a [(Bytes, Tree)],
    file: usize,
    line: Line<'a>,
    found: &mut Finding<'a>,
) -> Result<(), Mem>
    ensures { OnOk result (found_of found.new ≡ one_line (walk_to depth (files_of files.now)) (files_of files.now) file (found_of found.old) (line_of line.entry)) }
{
    match line.decl {
        Decl::Module { place: _, name } => {
            found.module_name = name.text.as_slice();
            Ok(())
        }
        Decl::Load {
            place: _,
            file: name,
        } => {
            let number = file_named(files, name);
            load(alloc, depth, files, number, line.exported, found)?;
            Ok(())
        }
        Decl::Export { .. }
        | Decl::Variable { .. }
        | Decl::Redef { .. }
        | Decl::RedefEnum { .. }
        | Decl::RedefRecord { .. }
        | Decl::Type { .. }
        | Decl::Body { .. }
        | Decl::Function { .. } => {
            add(file, line, found)?;
            Ok(())
        }
    }
}

/// Adds what the file of a number declares, unless it has its place.
#[cycle(walk)]
fn load<'a>(
    alloc: Global,
    depth: usize,
    files: &'a [(Bytes, Tree)],
    number: Option<usize>,
    exported: bool,
    found: &mut Finding<'a>,
) -> Result<(), Mem>
    ensures { OnOk result (found_of found.new ≡ load (walk_to depth (files_of files.now)) exported (found_of found.old) number) }
{
    let Some(number) = number else {
        return Ok(());
    };
    if is_placed(number, &found.placed) {
        return Ok(());
    }
    let before = enter(number, found)?;
    walk(alloc, depth, files, number, exported, found)?;
    found.module_name = before;
    Ok(())
}

/// Adds a declaration.
fn add<'a>(file: usize, line: Line<'a>, found: &mut Finding<'a>) -> Result<(), Mem>
    ensures { OnOk result (found_of found.new ≡ add file (found_of found.old) (line_of line.entry)) }
{
    let home = Home {
        file,
        module_name: found.module_name,
        exported: line.exported,
    };
    found.stated.push(Stated {
        home,
        decl: line.decl,
    })?;
    Ok(())
}

/// The declarations of all files, in load order.
pub fn load_order<'a>(alloc: Global, files: &'a [(Bytes, Tree)]) -> Result<Vec<Stated<'a>>, Mem>
    ensures { IfOk result (λ stated. stated_lent stated.items ≡ load_order (files_of files.now)) }
{
    let mut found = Finding {
        placed: Vec::new(alloc),
        module_name: &[],
        stated: Vec::new(alloc),
    };
    for number in 0..files.len() {
        if !is_placed(number, &found.placed) {
            enter(number, &mut found)?;
            walk(alloc, files.len(), files, number, false, &mut found)?;
        }
    }
    let Finding {
        placed: _,
        module_name: _,
        stated,
    } = found;
    Ok(stated)
}
