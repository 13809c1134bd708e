ghost use Rattle.std.specs.Prelude.{◌≡◌, ◌≢◌, ℕ, ◌-◌, ◌^◌, ◌<◌, ◌≤◌, ◌↔◌, List, Option, Some};
ghost use Rattle.std.specs.Prelude.{None, IfOk, IsTrue, IsErrOf, MatchResult, OnOk, OnErr, length};
ghost use Rattle.std.specs.Prelude.{take, min, option_copied, true, false};
ghost use Rattle.std.specs.Ordering.{nat_cmp};
ghost use Rattle.std.specs.BTreeMap.{get};
ghost use Rattle.std.specs.BTreeSet.{contains};
ghost use Rattle.par_io.specs.Causes.{untouched_folder, Sets, Makes, SameAnswers, CountsRead};
ghost use Rattle.par_io.specs.Causes.{CountsWrite};

use crate::outside::{Folder, ReadFail, WriteFail};
use par_base::memory::NoMemory;
use std::alloc::Global;
use std::collections::{BTreeMap, BTreeSet};

/// Files in memory, with reads and writes that can be set to fail.
#[derive(Drop)]
pub struct MemFolder {
    alloc: Global,
    files: BTreeMap<String, Vec<u8>>,
    failing_reads: BTreeSet<u64>,
    // The writes that are set to fail, each with how many bytes it is to leave.
    failing_writes: BTreeMap<u64, u64>,
    // Calls made so far, up to the last number that can be set to fail.
    reads: u64,
    writes: u64,
    faults: u64,
    absents: u64,
    longs: u64,
    // No call behind the last number is set to fail.
    ghost reads_set_in_range: { contains nat_cmp failing_reads (2 ^ 64) ≡ false },
    ghost writes_set_in_range: { get nat_cmp failing_writes (2 ^ 64) ≡ None },
}

impl MemFolder {
    ghost use Rattle.par_io.specs.MemFolder.{files_of, is_read_set, write_keeps, next_read};
    ghost use Rattle.par_io.specs.MemFolder.{next_write, counts_of, SameReadsSet, SameWritesSet};

    /// A folder without files, none of whose calls is set to fail.
    pub fn new(alloc: Global) -> MemFolder
        ensures empty { (name : List ℕ) → files_of result name ≡ None }
        ensures no_read_set { (call : ℕ) → is_read_set result call ≡ false }
        ensures no_write_set { (call : ℕ) → write_keeps result call ≡ None }
        ensures counts { counts_of result ≡ untouched_folder }
    {
        MemFolder {
            alloc,
            files: BTreeMap::new(alloc),
            failing_reads: BTreeSet::new(alloc),
            failing_writes: BTreeMap::new(alloc),
            reads: 0,
            writes: 0,
            faults: 0,
            absents: 0,
            longs: 0,
        }
    }

    /// The bytes of a file.
    pub fn get(&self, name: &str) -> Option<&[u8]>
        ensures { option_copied result ≡ files_of self.now name.now }
    {
        self.files.get(name).map(|bytes| bytes.as_slice())
    }

    /// Gives a name these bytes, in place of any that it had.
    pub fn add(&mut self, name: &str, bytes: &[u8]) -> Result<(), NoMemory>
        ensures set { OnOk result
            (Sets name.now bytes.now (files_of self.old) (files_of self.new)) }
        ensures unchanged { OnErr result (files_of self.new ≡ files_of self.old) }
        ensures reads_set { SameReadsSet self.old self.new }
        ensures writes_set { SameWritesSet self.old self.new }
        ensures counts { counts_of self.new ≡ counts_of self.old }
    {
        self.set(self.alloc, name, bytes)
    }

    fn set(&mut self, alloc: Global, name: &str, bytes: &[u8]) -> Result<(), NoMemory>
        ensures set { OnOk result
            (Sets name.now bytes.now (files_of self.old) (files_of self.new)) }
        ensures unchanged { OnErr result (self.new.files.entries ≡ self.old.files.entries) }
        ensures reads_set { SameReadsSet self.old self.new }
        ensures writes_set { SameWritesSet self.old self.new }
        ensures counts { counts_of self.new ≡ counts_of self.old }
    {
        let name = String::from_str(alloc, name)?;
        let bytes = Vec::from_slice(alloc, bytes)?;
        self.files.insert(name, bytes)?;
        Ok(())
    }

    /// Lets a read fail, counted from 1 since the folder was made.
    pub fn fail_read(&mut self, call: u64) -> Result<(), NoMemory>
        ensures set { OnOk result (is_read_set self.new call ≡ true) }
        ensures others_stand { OnOk result ((other : ℕ) → other ≢ call →
            is_read_set self.new other ≡ is_read_set self.old other) }
        ensures unchanged { OnErr result (SameReadsSet self.old self.new) }
        ensures files { files_of self.new ≡ files_of self.old }
        ensures writes_set { SameWritesSet self.old self.new }
        ensures counts { counts_of self.new ≡ counts_of self.old }
    {
        self.failing_reads.insert(call)?;
        Ok(())
    }

    /// Lets a write fail, counted from 1 since the folder was made, and leave the first `keep` of
    /// its bytes under its name.
    pub fn fail_write(&mut self, call: u64, keep: u64) -> Result<(), NoMemory>
        ensures set { OnOk result (write_keeps self.new call ≡ Some keep) }
        ensures others_stand { OnOk result ((other : ℕ) → other ≢ call →
            write_keeps self.new other ≡ write_keeps self.old other) }
        ensures unchanged { OnErr result (SameWritesSet self.old self.new) }
        ensures files { files_of self.new ≡ files_of self.old }
        ensures reads_set { SameReadsSet self.old self.new }
        ensures counts { counts_of self.new ≡ counts_of self.old }
    {
        self.failing_writes.insert(call, keep)?;
        Ok(())
    }

    // Counts a read, and tells whether it is set to fail.
    fn begin_read(&mut self) -> bool
        ensures fails { result ≡ is_read_set self.old (next_read self.old) }
        ensures counted { Makes 1 0 (counts_of self.old) (counts_of self.new) }
        ensures answers { SameAnswers (counts_of self.old) (counts_of self.new) }
        ensures files { self.new.files ≡ self.old.files }
        ensures failing_reads { self.new.failing_reads ≡ self.old.failing_reads }
        ensures failing_writes { self.new.failing_writes ≡ self.old.failing_writes }
    {
        let Some(call) = self.reads.checked_add(1) else {
            return false;
        };
        self.reads = call;
        self.failing_reads.contains(&call)
    }

    // Counts a write, and tells how many bytes it is to leave where it is set to fail.
    fn begin_write(&mut self) -> Option<u64>
        ensures fails { result ≡ write_keeps self.old (next_write self.old) }
        ensures counted { Makes 0 1 (counts_of self.old) (counts_of self.new) }
        ensures answers { SameAnswers (counts_of self.old) (counts_of self.new) }
        ensures files { self.new.files ≡ self.old.files }
        ensures failing_reads { self.new.failing_reads ≡ self.old.failing_reads }
        ensures failing_writes { self.new.failing_writes ≡ self.old.failing_writes }
    {
        let call = self.writes.checked_add(1)?;
        self.writes = call;
        self.failing_writes.get(&call).copied()
    }
}

impl Folder for MemFolder {
    ghost use Rattle.par_io.specs.MemFolder.{files_of, is_read_set, write_keeps, next_read};
    ghost use Rattle.par_io.specs.MemFolder.{next_write, counts_of, SameReadsSet, SameWritesSet};

    ghost files = { λ s. Some (files_of s) };

    ghost counts = { counts_of };

    ghost counts_faults_alone = { true };

    fn read(&mut self, alloc: Global, name: &str, limit: u64) -> Result<Vec<u8>, ReadFail>
        ensures kept { files_of self.new ≡ files_of self.old }
        ensures found { IfOk result (λ bytes. files_of self.old name.now ≡ Some bytes.items) }
        ensures short { IfOk result (λ bytes. length bytes.items ≤ limit) }
        ensures absent { IsErrOf result ReadFail.Absent → files_of self.old name.now ≡ None }
        ensures long { IsErrOf result ReadFail.TooLong →
            (bytes : List ℕ) × (files_of self.old name.now ≡ Some bytes) × (limit < length bytes) }
        ensures failed { IsErrOf result ReadFail.Failed ↔
            IsTrue (is_read_set self.old (next_read self.old)) }
        ensures answers { MatchResult result
            (λ _. SameAnswers (counts_of self.old) (counts_of self.new))
            (λ fail. CountsRead fail (counts_of self.old) (counts_of self.new)) }
        ensures counted { Makes 1 0 (counts_of self.old) (counts_of self.new) }
        ensures reads_set { SameReadsSet self.old self.new }
        ensures writes_set { SameWritesSet self.old self.new }
    {
        if self.begin_read() {
            self.faults = self.faults.saturating_add(1);
            return Err(ReadFail::Failed);
        }
        let Some(bytes) = self.files.get(name) else {
            self.absents = self.absents.saturating_add(1);
            return Err(ReadFail::Absent);
        };
        if bytes.len() as u64 > limit {
            self.longs = self.longs.saturating_add(1);
            return Err(ReadFail::TooLong);
        }
        Ok(Vec::from_slice(alloc, bytes.as_slice())?)
    }

    /// Want of memory comes before a fault that is set.
    fn write(&mut self, alloc: Global, name: &str, bytes: &[u8]) -> Result<(), WriteFail>
        ensures written { OnOk result
            (Sets name.now bytes.now (files_of self.old) (files_of self.new)) }
        ensures not_set { OnOk result (write_keeps self.old (next_write self.old) ≡ None) }
        ensures failed { IsErrOf result WriteFail.Failed →
            (keep : ℕ) × (write_keeps self.old (next_write self.old) ≡ Some keep) ×
            Sets name.now (take keep bytes.now) (files_of self.old) (files_of self.new) }
        ensures memory { IsErrOf result WriteFail.Memory → files_of self.new ≡ files_of self.old }
        ensures answers { MatchResult result
            (λ _. SameAnswers (counts_of self.old) (counts_of self.new))
            (λ fail. CountsWrite fail (counts_of self.old) (counts_of self.new)) }
        ensures counted { Makes 0 1 (counts_of self.old) (counts_of self.new) }
        ensures reads_set { SameReadsSet self.old self.new }
        ensures writes_set { SameWritesSet self.old self.new }
    {
        match self.begin_write() {
            None => Ok(self.set(alloc, name, bytes)?),
            Some(keep) => {
                let kept = bytes.len().min(keep as usize);
                self.set(alloc, name, &bytes[..kept])?;
                self.faults = self.faults.saturating_add(1);
                Err(WriteFail::Failed)
            }
        }
    }
}
