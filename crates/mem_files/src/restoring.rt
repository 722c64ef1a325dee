//! A table made from lists.

ghost use Rattle.std.specs.Prelude.{◌≡◌, ◌+◌, ◌<◌, ◌≤◌, ◌^◌, IfOk, IfSome, OnOk, IsTrue, None, [], map as map_list, length, sum_by};
ghost use Rattle.std.specs.List.{All, IsDistinct};
ghost use Rattle.std.specs.Option.{option_copied};
ghost use Rattle.std.specs.Ordering.{nat_cmp, eq_by_cmp};
ghost use Rattle.std.specs.FinMap as map;
ghost use Rattle.mem_files.specs.Names.{bytes_cmp};
ghost use Rattle.mem_files.specs.World.{total};
ghost use Rattle.mem_files.specs.Calls.{bare_world};
ghost use Rattle.mem_files.specs.Lists.{listed, named, numbered_contents, world_of, lists_from, AreOrdered, AreInRange};
ghost use Rattle.mem_files.specs.Inside.Listing.{with_listed};

use crate::table::FileTable;
use crate::{FileView, OpenFile};
use ddc_base::limits::{MOST_DESCRIPTORS, MOST_NAME, MOST_NAMES};
use std::alloc::{AllocError, Global};

impl FileTable {
    /// The table of lists that are ordered and in range.
    pub fn of_lists(
        alloc: Global,
        files: &[FileView<'_>],
        open_files: &[(u32, OpenFile)],
        stream1: &[u8],
        stream2: &[u8],
    ) -> Result<FileTable, AllocError>
        requires ordered { AreOrdered (lists_from files.now open_files.now stream1.now stream2.now) }
        requires within { AreInRange (lists_from files.now open_files.now stream1.now stream2.now) }
        ensures { IfOk result (λ table. table ≡ world_of (lists_from files.now open_files.now stream1.now stream2.now)) }
    {
        let mut table = FileTable::bare(alloc)?;
        table.put_files(files)?;
        table.put_open_files(open_files)?;
        table.extend_stream1(stream1)?;
        table.extend_stream2(stream2)?;
        Ok(table)
    }

    /// Adds all files.
    fn put_files(&mut self, files: &[FileView<'_>]) -> Result<(), AllocError>
        requires bare { self.old ≡ bare_world }
        requires rise { IsTrue (map.is_sorted nat_cmp (numbered_contents (map_list listed files.now))) }
        requires low { All (λ file. file.number < MOST_NAMES + MOST_DESCRIPTORS) (map_list listed files.now) }
        requires short { All (λ e. length e.0 ≤ MOST_NAME) (named (map_list listed files.now)) }
        requires distinct { IsDistinct (eq_by_cmp bytes_cmp) (map_list (λ e. e.0) (named (map_list listed files.now))) }
        requires small { sum_by (λ file. length file.content) (map_list listed files.now) < 2 ^ 63 }
        ensures world { OnOk result (self.new ≡ world_of (record { files = map_list listed files.now; open_files = []; streams = [] })) }
        ensures total { OnOk result (total self.new ≡ sum_by (λ file. length file.content) (map_list listed files.now)) }
    {
        for file in files {
            self.put_file(file)?;
        }
        Ok(())
    }

    /// Adds a file under a number that is not in use.
    fn put_file(&mut self, file: &FileView<'_>) -> Result<(), AllocError>
        requires unused { map.get self.old.files file.now.number ≡ None }
        requires low { file.now.number < MOST_NAMES + MOST_DESCRIPTORS }
        requires absent { IfSome (option_copied file.now.name) (λ name. map.get self.old.names name ≡ None) }
        requires short { IfSome (option_copied file.now.name) (λ name. length name ≤ MOST_NAME) }
        requires small { total self.old + length file.now.content.now < 2 ^ 64 }
        ensures { OnOk result (self.new ≡ with_listed self.old (listed file.now)) }
    {
        match file.name {
            Some(name) => self.put_named(file.number, name, file.content),
            None => self.put_unnamed(file.number, file.content),
        }
    }

    /// Adds all descriptors.
    fn put_open_files(&mut self, open_files: &[(u32, OpenFile)]) -> Result<(), AllocError>
        requires empty { self.old.open_files ≡ map.empty }
        requires rise { IsTrue (map.is_sorted nat_cmp open_files.now) }
        requires low { All (λ held. held.0 < MOST_DESCRIPTORS) open_files.now }
        ensures { OnOk result (self.new ≡ record self.old { open_files = map.from_entries open_files.now }) }
    {
        for (fd, open_file) in open_files {
            self.put_open_file(*fd, *open_file)?;
        }
        Ok(())
    }
}
