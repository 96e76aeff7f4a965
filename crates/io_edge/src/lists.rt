use std::marker::Model;

/// Bytes that contracts see as a list.
#[derive(Debug, Drop)]
pub struct Bytes {
    pub items: Vec<u8>,
}

impl Model for Bytes {
    ghost use Rattle.std.specs.Prelude.{List, ℕ};

    ghost Value = { List ℕ };

    ghost view = { λ b. b.items.items };
}

/// Numbers that contracts see as a list.
#[derive(Debug, Drop)]
pub struct Numbers {
    pub items: Vec<u32>,
}

impl Model for Numbers {
    ghost use Rattle.std.specs.Prelude.{List, ℕ};

    ghost Value = { List ℕ };

    ghost view = { λ n. n.items.items };
}

/// The name of a file and its bytes.
#[derive(Debug, Drop)]
pub struct NamedFile {
    pub name: Bytes,
    pub bytes: Bytes,
}

/// Named files that contracts see as a list of records.
#[derive(Debug, Drop)]
pub struct NamedFiles {
    pub items: Vec<NamedFile>,
}

impl Model for NamedFiles {
    ghost use Rattle.std.specs.Prelude.{List};
    ghost use Rattle.io_edge.specs.declared.lists.NamedFile.{NamedFile};

    ghost Value = { List NamedFile };

    ghost view = { λ f. f.items.items };
}
