//! What help says of the program and of its commands. In an example, lines that begin with `$` are
//! what a reader types, and the lines below one are what it prints: `tests/examples.py` runs them.

/// What help says of a command.
pub struct Help {
    /// What it does, in one line.
    pub about: &'static str,
    /// What goes in and what comes out.
    pub whole: &'static str,
    /// The exit statuses and an example.
    pub end: &'static str,
}

pub const PROGRAM: Help = Help {
    about: "Finds the frequent keys of large weighted streams",
    whole: "Finds the frequent keys of large weighted streams: the heavy hitters, which have more
than a share of the total weight. Each answer is exact or carries a bound.

Records come from files or standard input, one a line, as CSV without a header:
key,weight or a key alone, which weighs 1. A key has 1 to 4096 bytes, a weight is a
number from 1 on, and all weights together are at most 9223372036854775807. A key with
a comma, a quote or a line feed in it stands in quotes. Options of the commands that
read records say where key and weight stand in others. Answers go to standard output or,
with -o FILE, to a new file, which is flushed to the disk and takes the place of FILE
once it is whole: after a fault FILE is as it was. A fault is one line on standard
error, and two on a terminal, with --explain, and where records of files or FILE are at
fault.",
    end: "Exit status: 0 done; 1 a device failed (input, output or a file); 2 wrong usage;
3 refused input (a record, a file or a key); 4 out of memory.

Example:
    $ printf 'a,5\\nb,3\\nc,2\\na,1\\n' | heavy report --k 2
    a,6",
};

pub const REPORT: Help = Help {
    about: "Print the heavy keys of records, with their weights",
    whole: "Print the heavy keys of records, with their weights: rows key,weight, by falling
weight and then by key. The weights are exact. Records are those of the files, or of
standard input. Files are read once or twice, and may be larger than memory. Standard
input and pipes are kept in memory up to --memory megabytes, and else in a file without
a name in the folder TMPDIR, or /tmp. With --pieces, --tree, --width, --depth or --seed
all records are kept in memory, whatever --memory says, and the report is made by that
plan; the rows are the same. With --once one thread reads the input once, of any length,
and keeps nothing of it. The rows are the same then, too, or the report is refused,
where --memory megabytes of counters leave open what a key weighs that can be heavy.",
    end: "Exit status: 0 the report is whole; 1 input or a file could not be read or output
not be written; 2 an option is refused; 3 a record is refused, a header has no such
column, or with --once not all rows are certain; 4 out of memory.

Example:
    $ printf 'a,5\\nb,3\\nc,2\\na,1\\n' | heavy report --k 9 --threshold 1/4
    a,6
    b,3
    $ printf 'host bytes\\nx 5\\ny -\\nx 1\\n' > day.log
    $ heavy report --delimiter ' ' --header --key host --weight bytes --allow-zero day.log
    x,6
    $ printf 'a,0.5\\nb,0.125\\na,2\\n' | heavy report --decimals 3
    a,2.500
    b,0.125",
};

pub const TOP_HELP: Help = Help {
    about: "Print the N keys of the greatest weight",
    whole: "Print the N keys of the greatest weight, exactly: rows key,weight, by falling weight and
then by key, and all keys where they are fewer. Records are those of the files, or of
standard input. Files are read once where the counters tell the weight of each key that
can be among the N, else twice: the second time the others that can are counted. Where
the counters leave open which keys can, they grow, to --memory megabytes in all, and
files are read once more before that. They may be larger than memory. Standard input and
pipes are kept in memory up to --memory megabytes, and else in a file without a name in
the folder TMPDIR, or /tmp. Where the grown counters leave it open too, nothing is
printed: --explain tells what the next key can weigh.",
    end: "Exit status: 0 all rows are written; 1 input or a file could not be read or output
not be written; 2 an option is refused; 3 a record is refused, a header has no such
column, or not all N keys are certain; 4 out of memory.

Example:
    $ printf 'a,5\\nb,3\\nc,2\\na,1\\n' | heavy top 2
    a,6
    b,3",
};

pub const SUMMARISE: Help = Help {
    about: "Write a summary of records to standard output",
    whole: "Write a summary of records to standard output: at most k counters, for `heavy ask`,
`heavy confirm` and `heavy merge`. Records are those of the files, or of standard
input. No record is kept, so input can be larger than memory. With --workers 2 or
more, workers read files in pieces. Their counters keep the same bounds but may differ
from run to run, and --method changes nothing. One thread reads standard input, and
all files where one of them is a pipe, a device or empty.",
    end: "Exit status: 0 the summary is whole; 1 input or a file could not be read or output
not be written; 2 an option is refused; 3 a record is refused, or a header has no
such column; 4 out of memory.

Example:
    $ printf 'a,5\\nb,3\\nc,2\\na,1\\n' | heavy summarise --k 2 > day.heavy
    $ heavy ask day.heavy a b c
    a,4,6
    b,1,3
    c,0,2",
};

pub const TABLE: Help = Help {
    about: "Write a Count-Min table of records to standard output",
    whole: "Write a Count-Min table of records to standard output, for `heavy ask` and `heavy
merge`. It never estimates a key below its weight. Tables can be merged where width,
depth and seed are the same. Records are those of the files, or of standard input.
Workers read files in pieces. One thread reads standard input, and all files where one
of them is a pipe, a device or empty. No record is kept, so input can be larger than
memory.",
    end: "Exit status: 0 the table is whole; 1 input or a file could not be read or output
not be written; 2 an option is refused; 3 a record is refused, or a header has no
such column; 4 out of memory.

Example:
    $ printf 'a,5\\nb,3\\nc,2\\na,1\\n' | heavy table --width 64 > day.table
    $ heavy ask day.table a z
    a,0,6
    z,0,0",
};

pub const MERGE: Help = Help {
    about: "Merge saved files, and write the result to standard output",
    whole: "Merge saved files, and write the result to standard output: summaries of one k, or
tables of one width, depth and seed. The result stands for the records of all. All files
are held in memory at once. One of them may be -, standard input.
A word that begins with - is given after --",
    end: "Exit status: 0 the result is whole; 1 a file could not be read or output not be
written; 2 wrong usage; 3 a file is damaged or of another kind; 4 out of memory.

Example:
    $ printf 'a,5\\nb,3\\n' | heavy summarise --k 2 > one.heavy
    $ printf 'c,2\\na,1\\n' | heavy summarise --k 2 > two.heavy
    $ heavy merge one.heavy two.heavy > both.heavy
    $ heavy ask both.heavy a
    a,4,6",
};

pub const ASK: Help = Help {
    about: "Print what a saved file says of keys: key,low,high",
    whole: "Print what a saved file says of keys: a row key,low,high for each, in the order
given. The key's weight lies between the two, both included. A saved file counts in
units of the last decimal that its records were read with, and doesn't know how many
there were: --decimals says it again.
A word that begins with - is given after --",
    end: "Exit status: 0 all rows are written; 1 the file could not be read or output not be
written; 2 wrong usage; 3 the file is damaged, or a key is empty or longer than
4096 bytes; 4 out of memory.

Example:
    $ printf 'a,5\\nb,3\\nc,2\\na,1\\n' | heavy summarise --k 3 > day.heavy
    $ heavy ask day.heavy a z
    a,6,6
    z,0,0",
};

pub const LIST: Help = Help {
    about: "Print what a saved summary says of all its keys: key,low,high",
    whole: "Print what a saved summary says of all its keys: a row key,low,high for each key with
a counter, by falling low and then by key. The key's weight lies between the two, as
`heavy ask` tells it, with its --decimals. A key that isn't listed weighs at most what
high has above low.
A word that begins with - is given after --",
    end: "Exit status: 0 all rows are written; 1 the file could not be read or output not be
written; 2 wrong usage; 3 the file is damaged or no summary; 4 out of memory.

Example:
    $ printf 'a,5\\nb,3\\nc,2\\na,1\\n' | heavy summarise --k 2 > day.heavy
    $ heavy list day.heavy
    a,4,6
    b,1,3",
};

pub const DESCRIBE: Help = Help {
    about: "Print what is in a saved file: name,value",
    whole: "Print what is in a saved file, in rows name,value: its version and kind; of a summary k,
how many keys have a counter, the total weight, the sum of the counters, and the slack,
which is how far a counter may be below its key's weight; of a table its depth, its
width and the total weight. The last three of a summary, and a table's total, are in
units of the last decimal that the records were read with.
A word that begins with - is given after --",
    end: "Exit status: 0 all rows are written; 1 the file could not be read or output not be
written; 2 wrong usage; 3 the file is damaged; 4 out of memory.

Example:
    $ printf 'a,5\\nb,3\\nc,2\\na,1\\n' | heavy summarise --k 2 > day.heavy
    $ heavy describe day.heavy
    version,2
    kind,summary
    k,2
    keys,2
    total,11
    counters,5
    slack,2",
};

pub const CONDENSE: Help = Help {
    about: "Print fewer records that say the same to `heavy confirm`",
    whole: "Print fewer records that say to `heavy confirm` what those of the files behind the
summary say, or of standard input: the weight of each key of a saved summary that
comes there, by rising key, and then that of all other keys together, under the name
`others` (or others1, others2 and so on, where that is a key of the summary). Parts
of a stream that are condensed by one summary, joined in any order, are confirmed as
the stream is, with the same --decimals. Workers read files in pieces. One thread reads
standard input, and all files where one of them is a pipe, a device or empty. No record
is kept, so input can be larger than memory.
A word that begins with - is given after --",
    end: "Exit status: 0 all rows are written; 1 a file or input could not be read or
output not be written; 2 wrong usage; 3 the summary is damaged or none, a record is
refused, or a header has no such column; 4 out of memory.

Example:
    $ printf 'a,5\\nb,3\\nc,2\\na,1\\n' > day.csv
    $ heavy summarise --k 2 < day.csv > day.heavy
    $ heavy condense day.heavy < day.csv
    a,6
    b,3
    others,2",
};

pub const CONFIRM: Help = Help {
    about: "Print the heavy keys of a saved summary in the records that it was made of",
    whole: "Print the heavy keys of a saved summary in the records that it was made of, in any
order: rows key,weight, by falling weight and then by key. The weights are exact, and
no heavy key is missing. Keys are heavy above 1/(k+1) of the total, or above a larger
share of your own. It has no --k: the summary has a k of its own, which `heavy
describe` tells. Records are those of the files behind the summary, or of standard
input. Where a key's weight is outside the bounds that the summary has for it, they are
other records: status 3. Of standard input with no file named and no option of records
that is a note, and the status is 0. Workers read files in pieces. One thread reads
standard input, and all files where one of them is a pipe, a device or empty. No record
is kept, so input can be larger than memory.
A word that begins with - is given after --",
    end: "Exit status: 0 all rows are written; 1 a file or input could not be read or
output not be written; 2 wrong usage, or a threshold is refused; 3 the summary is
damaged or none, a record is refused, a header has no such column, the weights do not
sum up to the summary's total, or one is outside its bounds; 4 out of memory.

Example:
    $ printf 'a,5\\nb,3\\nc,2\\na,1\\n' > day.csv
    $ heavy summarise --k 2 < day.csv > day.heavy
    $ heavy confirm day.heavy < day.csv
    a,6
    $ heavy confirm --threshold 3/5 day.heavy < day.csv",
};
