//! The layouts that the lines made, by name.
ghost use Rattle.std.specs.Prelude.{◌≡◌, ◌+◌, ◌<◌, ◌≤◌, ◌↔◌, ◌++◌, ◌∷◌, [], IsTrue, IfOk, length};
ghost use Rattle.std.specs.Prelude.{OnOk, None, if◌then◌else◌, string_bytes};

use gpu_descriptor_types::DescriptorTotalCount;
use indexmap::IndexMap;
use indexmap::map::Iter;
use std::alloc::{AllocError, Global};
use std::string::String;

/// The greatest number of layouts.
pub const MAX_LAYOUTS: usize = 1024;

/// A layout: how many descriptors a set has, and whether it is marked for updates after binding.
#[derive(Clone, Copy, Debug, PartialEq, Eq)]
pub struct Layout {
    pub counts: DescriptorTotalCount,
    pub mark: bool,
}

/// A layout in the table.
#[derive(Clone, Copy, Debug)]
pub struct Entry {
    pub layout: Layout,

    /// Whether no earlier layout has the same counts and mark, and so the same pools.
    pub is_first: bool,
}

/// The layouts by name, in the order in which they came.
#[derive(Drop)]
pub struct LayoutTable {
    alloc: Global,
    by_name: IndexMap<String, Entry>,
}

impl LayoutTable {
    ghost use Rattle.descriptor_lines.specs.LayoutTables.{first_layouts, has_key, place_named};
    ghost use Rattle.descriptor_lines.specs.LayoutTables.{layout_named, layouts_in, max_layouts};
    ghost use Rattle.indexmap.specs.IndexMap.{spare};

    pub fn new(alloc: Global) -> Self
        ensures { layouts_in result ≡ [] }
    {
        LayoutTable {
            alloc,
            by_name: IndexMap::new(alloc),
        }
    }

    /// Whether there are as many layouts as there may be.
    pub fn is_full(&self) -> bool
        ensures { IsTrue result ↔ (max_layouts ≤ length self.now.by_name.entries) }
    {
        MAX_LAYOUTS <= self.by_name.len()
    }

    /// The layout of this name.
    pub fn get(&self, name: &str) -> Option<Layout>
        ensures { result ≡ layout_named self.now name.now }
    {
        self.by_name.get(name).map(|entry| entry.layout)
    }

    /// The place of the layout of this name, in the order in which they came.
    pub fn place(&self, name: &str) -> Option<usize>
        ensures { result ≡ place_named self.now name.now }
    {
        self.by_name.get_index_of(name)
    }

    /// The layouts with their names, in the order in which they came.
    pub fn iter(&self) -> Iter<'_, String, Entry>
        ensures { result ≡ self.now.by_name.entries }
    {
        self.by_name.iter()
    }

    /// Reserves memory for one more layout.
    pub fn reserve(&mut self) -> Result<(), AllocError>
        ensures reserve { OnOk result (0 < spare self.new.by_name) }
        ensures same { self.new.by_name.entries ≡ self.old.by_name.entries }
    {
        self.by_name.reserve(1)
    }

    /// The name as the table keeps it.
    pub fn kept_name(&self, name: &str) -> Result<String, AllocError>
        ensures { IfOk result (λ kept. string_bytes kept ≡ name.now) }
    {
        String::from_str(self.alloc, name)
    }

    /// Whether a layout has the same counts and the same mark.
    fn has_key(&self, layout: &Layout) -> bool
        ensures { result ≡ has_key (layouts_in self.now) layout.now }
    {
        for entry in self.by_name.values() {
            if entry.layout == *layout {
                return true;
            }
        }
        false
    }

    /// Puts a layout of a new name last, over memory that was reserved.
    pub fn push(&mut self, name: String, layout: Layout)
        requires reserve { 0 < spare self.old.by_name }
        requires absent { layout_named self.old (string_bytes name) ≡ None }
        ensures layouts { layouts_in self.new ≡ layouts_in self.old ++ (string_bytes name, layout)
            ∷ [] }
        ensures firsts { first_layouts self.new ≡ first_layouts self.old
            ++ (if has_key (layouts_in self.old) layout then [] else (string_bytes name, layout)
            ∷ []) }
    {
        let is_first = !self.has_key(&layout);
        // Memory is reserved, and the name is new.
        let _ = self.by_name.insert(name, Entry { layout, is_first });
    }
}
