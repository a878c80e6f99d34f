//! The commands, and what the help says of them and of the options.

/// A command of the program.
pub(crate) struct Row {
    /// Its word on the command line.
    pub(crate) word: &'static str,
    /// Whether it takes the name of a file.
    pub(crate) takes_name: bool,
    /// What it does, in one line.
    pub(crate) about: &'static str,
    /// An example of it, and what else its help says.
    pub(crate) more: &'static str,
}

/// The commands, in the order of the help. A further one is a row here, one of `commands` in
/// `specs/CommandLine.antt`, and what `words.rt` makes of its word.
pub(crate) static ROWS: [Row; 7] = [
    Row {
        word: "file",
        takes_name: true,
        about: "Read the text of a file, and write its canonical text",
        more: "\
The file isn't opened: its text comes from standard input. Its canonical text is written once the
input has ended; a text that isn't in the grammar is refused at its first bad byte.

Examples:
  cgfile file --known cpu.weight < /sys/fs/cgroup/a/cpu.weight
  printf '10000\\n' | cgfile file cpu.weight       writes 10000
  printf '10001\\n' | cgfile file cpu.weight       writes cgfile: refused at 4: line",
    },
    Row {
        word: "setting",
        takes_name: true,
        about: "Read one write to a file, and write its canonical text",
        more: "\
Nothing is written to the file. A refusal is written to standard output, as a setting is: look at
the exit status before the output is used.

Examples:
  printf '15E\\n' | cgfile setting memory.max      writes 17293822569102704640
  printf '16E\\n' | cgfile setting memory.max      writes cgfile: refused at 2: line
  v=$(cgfile setting --known cpu.max) && printf '%s\\n' \"$v\" > /sys/fs/cgroup/a/cpu.max",
    },
    Row {
        word: "show",
        takes_name: false,
        about: "Read a snapshot, and write its lines, each after its path",
        more: "\
A snapshot is what grep -rZ prints: for each line of each file a record of the file's path, a NUL
and the line. An entry is shown as soon as the path of the next one has come.

Examples:
  LC_ALL=C grep -rZ '' /sys/fs/cgroup 2> /dev/null | cgfile show
  printf 'a/cpu.weight\\000100\\n' | cgfile show     writes a/cpu.weight: 100",
    },
    Row {
        word: "json",
        takes_name: false,
        about: "Read a snapshot, and write each entry as a line of JSON",
        more: "\
A line is an object of the kind, the path and the value of an entry, written as soon as the path of
the next one has come. Text that isn't UTF-8 is an array of its bytes.

Examples:
  LC_ALL=C grep -rZ '' /sys/fs/cgroup 2> /dev/null | cgfile json |
    jq -r 'select(.kind == \"limit\").path'
  printf 'cpuset.cpus\\0000-4,6\\n' | cgfile json
                    writes {\"kind\":\"set\",\"path\":\"cpuset.cpus\",\"value\":[[0,4],[6,6]]}",
    },
    Row {
        word: "plan",
        takes_name: false,
        about: "Read a plan of writes, and write each in its canonical text",
        more: "\
A plan has a record for each write: the file's path, a NUL, the line that is about to be written
there, and a newline. Each record is written in the same form as soon as its newline has come.

Example:
  printf 'a/memory.max\\00015E\\n' | cgfile plan   writes a/memory.max, a NUL and 17293822569102704640",
    },
    Row {
        word: "check",
        takes_name: false,
        about: "Read a snapshot, and list what it breaks of the rules for delegation",
        more: "\
A line has the rule, the path of a cgroup.subtree_control and a controller that it names and that
C1  its group doesn't have in cgroup.controllers,
C2  the group above doesn't have in cgroup.subtree_control,
C3  isn't threaded, where the group is a domain and has processes.
It keeps the entries of cgroup.controllers, cgroup.subtree_control, cgroup.procs and cgroup.type,
and no other, until the input has ended. The status is 1 where there is a line.

Example:
  LC_ALL=C grep -rZ '' /sys/fs/cgroup 2> /dev/null | cgfile check",
    },
    Row {
        word: "kinds",
        takes_name: false,
        about: "List the file table: each name, what is read and what is written",
        more: "\
A line has the name, the kind that is read and the kind that is written, and - for none. Standard
input isn't read.

Example:
  cgfile kinds | grep '^cpu.max '                 writes cpu.max cpu_max cpu_max",
    },
];

/// What the program is.
pub(crate) const ABOUT: &str =
    "Read the interface files of Linux control groups (cgroup v2) exactly by their grammar";

/// What else the program's help says.
pub(crate) const MORE: &str = "\
Input comes from standard input. All that is written goes to standard output, refusals too.
Options may also stand after the command; one that stands in both places counts there.

Exit status:
  0  done
  1  the input was refused, cut or too long, the name can't be read, or written, or check has a line
  2  bad command line
  3  a read or a write failed
  4  no memory was left
  5  done but for what --keep-going left out

Example:
  cgfile file --known cpu.weight < /sys/fs/cgroup/a/cpu.weight

`cgfile COMMAND --help` tells more of a command.";

pub(crate) const PROFILE: &str = "\
Which grammar: the greatest list number is 65535 in 1 and 1048575 in 2,
memory.numa_stat is raw lines in 1 and nested in 2; kernel is 2 with rows for
more files, as `cgfile --profile kernel kinds` lists them, with (unknown) for a
device that is gone, and with values of io.stat below 0
[default: 1]";

pub(crate) const MAX_RECORD: &str =
    "How many bytes a record may have, of a plan too, with its newline [default: 1048576]";

pub(crate) const MAX_LINES: &str =
    "How many records a snapshot's entry may have [default: 1000000]";

pub(crate) const MAX_STREAM: &str =
    "How many bytes of standard input are read at most [default: 1073741824]";

pub(crate) const KNOWN: &str = "\
Take a NAME that the file table doesn't have as a bad command line (without
this option such a file is raw lines, and nearly all texts pass)";

pub(crate) const EXPLAIN: &str = "\
Where a byte is refused, or the input ends too early, tell in one more line
where that is, what came there, and which bytes may come";

pub(crate) const KEEP_GOING: &str = "\
Of show, json and check: leave out each file with a line that is refused or too
long, tell it in place, and go on";

pub(crate) const NAME: &str = "The file's name alone, without a folder, as `cgfile kinds` lists it";
