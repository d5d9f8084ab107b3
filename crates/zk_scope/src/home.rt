use zk_tree::Decl;

/// Where a declaration stands: its file by its number, its module, which is empty for none, and whether
/// it is exported.
#[derive(Clone, Copy)]
pub struct Home<'a> {
    pub file: usize,
    pub module_name: &'a [u8],
    pub exported: bool,
}

/// A declaration, and where it stands.
#[derive(Clone, Copy)]
pub struct Stated<'a> {
    pub home: Home<'a>,
    pub decl: &'a Decl,
}
