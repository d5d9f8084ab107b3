ghost use Rattle.std.specs.Prelude.{◌≡◌, OnErr, OnOk};
ghost use Rattle.zk_events.specs.Known.{forgetting, knowing, none_known};

use std::alloc::Global;
use std::collections::BTreeMap;
use zk_base::{ConnNo, Mem, ObjectNo};

/// The objects of an instance of a connection.
#[derive(Clone, Copy, Debug, PartialEq, Eq)]
pub struct Objects {
    pub connection: ObjectNo,
    pub id: ObjectNo,
    pub orig: ObjectNo,
    pub resp: ObjectNo,
}

/// The objects of each instance that has any.
#[derive(Debug, Drop)]
pub struct Connections {
    objects: BTreeMap<u64, Objects>,
}

impl Connections {
    ghost use Rattle.zk_events.specs.Holding.{known_in};

    /// No objects. No memory is taken.
    pub fn new(alloc: Global) -> Connections
        ensures { known_in result ≡ none_known }
    {
        Connections {
            objects: BTreeMap::new(alloc),
        }
    }

    /// The objects of an instance, if it has any.
    pub fn get(&self, conn: ConnNo) -> Option<Objects>
        ensures { result ≡ known_in self.now conn.0 }
    {
        self.objects.get(&conn.0).copied()
    }

    /// Gives an instance its objects. `Mem` leaves the value as it was.
    pub fn set(&mut self, conn: ConnNo, objects: Objects) -> Result<(), Mem>
        ensures ok { OnOk result (known_in self.new ≡ knowing conn.0 objects (known_in self.old)) }
        ensures err { OnErr result (known_in self.new ≡ known_in self.old) }
    {
        self.objects.insert(conn.0, objects)?;
        Ok(())
    }

    /// Forgets the objects of an instance.
    pub fn forget(&mut self, conn: ConnNo)
        ensures { known_in self.new ≡ forgetting conn.0 (known_in self.old) }
    {
        self.objects.remove(&conn.0);
    }
}
