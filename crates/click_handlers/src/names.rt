//! The handlers of each class, in order.

ghost use Rattle.std.specs.Prelude.{◌≡◌, map};
ghost use Rattle.std.specs.List.{list_any};
ghost use Rattle.std.specs.Str.{bytes_eq};
ghost use Rattle.click_handlers.specs.Names.{has_read, has_write, reads_of, writes_of};

use click_base::Class;

/// The classes whose handlers are the rows of a table, in the order of a table.
///
/// The handlers of the gateway package have no rows.
pub(crate) const CLASSES_WITH_HANDLERS: [Class; 8] = [
    Class::Queue,
    Class::FrontDropQueue,
    Class::Counter,
    Class::Switch,
    Class::PullSwitch,
    Class::Suppressor,
    Class::InfiniteSource,
    Class::StaticIPLookup,
];

/// The names of the handlers of a Suppressor's ports.
const ACTIVE: &[&[u8]] = &[
    b"active0",
    b"active1",
    b"active2",
    b"active3",
    b"active4",
    b"active5",
    b"active6",
    b"active7",
    b"active8",
    b"active9",
    b"active10",
    b"active11",
    b"active12",
    b"active13",
    b"active14",
    b"active15",
];

/// Returns the names of the handlers of a class that can be read, in order.
#[tactic(auto, unfolding(crate::specs::Names::reads_of))]
pub fn reads_of(class: Class) -> &'static [&'static [u8]]
    ensures { map (λ n. n.now) result.now ≡ reads_of class }
{
    match class {
        Class::Queue | Class::FrontDropQueue => {
            &[b"length", b"highwater_length", b"drops", b"capacity"]
        }
        Class::Counter => &[b"count", b"byte_count"],
        Class::Switch | Class::PullSwitch => &[b"switch"],
        Class::Suppressor => ACTIVE,
        Class::StaticIPLookup => &[b"lookup"],
        Class::InfiniteSource => &[b"active", b"count"],
        Class::ARPQuerier => &[b"table", b"count", b"drops"],
        _ => &[],
    }
}

/// Returns the names of the handlers of a class that can be written, in order.
#[tactic(auto, unfolding(crate::specs::Names::writes_of))]
pub fn writes_of(class: Class) -> &'static [&'static [u8]]
    ensures { map (λ n. n.now) result.now ≡ writes_of class }
{
    match class {
        Class::Queue | Class::FrontDropQueue => &[b"capacity", b"reset_counts", b"reset"],
        Class::Counter => &[b"reset_counts"],
        Class::Switch | Class::PullSwitch => &[b"switch"],
        Class::Suppressor => ACTIVE,
        Class::InfiniteSource => &[b"active", b"reset"],
        Class::ARPQuerier => &[b"insert", b"delete", b"clear", b"reset_counts", b"expire"],
        _ => &[],
    }
}

/// Returns whether the name is in the list.
fn is_among(names: &[&[u8]], name: &[u8]) -> bool
    ensures { result ≡ list_any (λ n. bytes_eq n.now name.now) names.now }
{
    for other in names {
        if *other == name {
            return true;
        }
    }
    false
}

/// Returns whether elements of the class have a handler of that name that can be read.
pub fn has_read(class: Class, name: &[u8]) -> bool
    ensures { result ≡ has_read class name.now }
{
    is_among(reads_of(class), name)
}

/// Returns whether elements of the class have a handler of that name that can be written.
pub fn has_write(class: Class, name: &[u8]) -> bool
    ensures { result ≡ has_write class name.now }
{
    is_among(writes_of(class), name)
}
