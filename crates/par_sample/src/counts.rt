//! The counts of a program's parts.

ghost use Rattle.std.specs.Prelude.{◌≡◌, ◌≤◌, length};
ghost use Rattle.std.specs.List.{AllByRecursion};
ghost use Rattle.par_sample.specs.Counted as counted;
ghost use Rattle.par_sample.specs.Counted.{BUILT_IN_CLASSES, MOST_CLASSES, IsSmallClass};
ghost use Rattle.par_sample.specs.Counted.{class_nodes, node_count, method_count};

use crate::summary::Summary;
use par_typed::table::{ClassInfo, Table};

// The classes that every program has come first.
const BUILT_IN: usize = 2;

/// How many nodes the methods of a class have.
fn nodes_of(class: &ClassInfo) -> u32
    requires { IsSmallClass class.now }
    ensures { result ≡ class_nodes class.now }
{
    let mut nodes = 0;
    for method in class.methods.as_slice() {
        nodes += method.nodes;
    }
    nodes
}

/// How many nodes the methods of classes have.
fn nodes_in(classes: &[ClassInfo]) -> u32
    requires few { length classes.now ≤ MOST_CLASSES }
    requires small { AllByRecursion IsSmallClass classes.now }
    ensures { result ≡ node_count classes.now }
{
    let mut nodes = 0;
    for class in classes {
        nodes += nodes_of(class);
    }
    nodes
}

/// How many methods classes have.
fn methods_in(classes: &[ClassInfo]) -> u32
    requires few { length classes.now ≤ MOST_CLASSES }
    requires small { AllByRecursion IsSmallClass classes.now }
    ensures { result ≡ method_count classes.now }
{
    let mut methods = 0;
    for class in classes {
        methods += class.methods.len() as u32;
    }
    methods
}

/// What is told of the program with this table, which is made of this number and gives so many
/// class files.
pub fn summary_of(number: u64, table: &Table, files: u32) -> Summary
    requires built_in { BUILT_IN_CLASSES ≤ length table.now.classes }
    requires few { length table.now.classes ≤ MOST_CLASSES }
    requires small { AllByRecursion IsSmallClass table.now.classes }
    ensures { result ≡ counted.summary_of number table.now files }
{
    let declared = &table.classes.as_slice()[BUILT_IN..];
    Summary {
        number,
        classes: declared.len() as u32,
        methods: methods_in(declared),
        nodes: nodes_in(declared),
        files,
    }
}
