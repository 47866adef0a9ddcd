//! Names of files, as paths.
ghost use Rattle.std.specs.Prelude.{◌≡◌, false, map, nat_eq};
ghost use Rattle.std.specs.List.{list_any, starts_with};
ghost use Rattle.std.specs.Option.{option_map_or};
ghost use Rattle.std.specs.Path.{component_bytes, components_remaining};
ghost use Rattle.std.specs.Str.{bytes_eq};
ghost use Rattle.word_values.specs.Paths.{are_paths_once, is_path_of_one, is_same_path, parts_of, path_begins};

use std::path::{Component, Components, Path};

/// The parts of a path.
fn parts(path: &str) -> Components<'_>
    ensures { components_remaining result ≡ parts_of path.now }
{
    let path = Path::new(path);
    let mut rest = path.components();
    match rest.next() {
        Some(Component::CurDir) => rest,
        _ => path.components(),
    }
}

/// Whether a part is another, where there is one.
fn is_part(part: Component, other: Option<Component>) -> bool
    ensures { result ≡ option_map_or (λ c. bytes_eq (component_bytes part.entry) (component_bytes c)) other.entry false }
{
    match other {
        Some(other) => part.as_os_str() == other.as_os_str(),
        None => false,
    }
}

/// Whether two names of files are one path.
pub fn is_same_path(one: &str, other: &str) -> bool
    ensures { result ≡ is_same_path one.now other.now }
{
    let mut left = parts(one);
    let mut right = parts(other);
    while let Some(part) = left.next() {
        if !is_part(part, right.next()) {
            return false;
        }
    }
    right.next().is_none()
}

/// Whether a part begins with another, where there is one.
fn is_begun(part: Component, other: Option<Component>) -> bool
    ensures { result ≡ option_map_or (λ c. starts_with nat_eq (component_bytes c) (component_bytes part.entry)) other.entry false }
{
    match other {
        Some(other) => other
            .as_os_str()
            .as_bytes()
            .starts_with(part.as_os_str().as_bytes()),
        None => false,
    }
}

/// Whether a name begins, as a path, with another, the last part of which may go on.
pub fn path_begins_with(name: &str, front: &str) -> bool
    ensures { result ≡ path_begins front.now name.now }
{
    let mut left = parts(front);
    let mut right = parts(name);
    let Some(mut last) = left.next() else {
        return true;
    };
    while let Some(next) = left.next() {
        if !is_part(last, right.next()) {
            return false;
        }
        last = next;
    }
    is_begun(last, right.next())
}

/// Whether a name is, as a path, one of some.
pub fn is_path_of_one(names: &[&str], name: &str) -> bool
    ensures { result ≡ is_path_of_one (map (λ w. w.now) names.now) name.now }
{
    for other in names {
        if is_same_path(name, other) {
            return true;
        }
    }
    false
}

/// Whether one of some names begins, as a path, with another.
pub fn one_path_begins_with(names: &[&str], front: &str) -> bool
    ensures { result ≡ list_any (path_begins front.now) (map (λ w. w.now) names.now) }
{
    for name in names {
        if path_begins_with(name, front) {
            return true;
        }
    }
    false
}

/// Whether no name is, as a path, another one.
pub fn are_paths_once(names: &[&str]) -> bool
    ensures { result ≡ are_paths_once (map (λ w. w.now) names.now) }
{
    for at in 0..names.len() {
        if is_path_of_one(&names[at + 1..], names[at]) {
            return false;
        }
    }
    true
}
