// What `velvetopal help` prints.
pub(crate) const HELP: &str =
    "velvetopal: linear flash cards in memory, and the block writer on them

velvetopal               a demonstration: two designs on a card, a patch, a lock and a worn lane
velvetopal run SCRIPT    carries out a script and prints a record of each command; - reads standard input
velvetopal help          this text

The commands of a script, one to a line; # starts a comment:

card NAME memory|series2|series100 B K N [HEX [LENGTH]]
lives NAME BLOCK even|odd|both COUNT
lock NAME on|off
supply NAME good|low
waits NAME WRITE WIPE
layer NAME window FIRST COUNT
layer NAME fence
mark NAME BLOCK on|off
put NAME PLACE HEX [ROOM]
plan NAME PLACE HEX [ROOM]
clear NAME FIRST COUNT [ROOM]
buffer NAME
take NAME PLACE LENGTH
word NAME PLACE VALUE
wipe NAME BLOCK
raw NAME word|byte|odd read PLACE
raw NAME word|byte|odd write PLACE VALUE
slot NAME size|sample|reset|pin
slot NAME read PLACE
slot NAME write PLACE VALUE
show NAME

Numbers are decimal, or hexadecimal after 0x. HEX is pairs of digits, - for no bytes, or @FILE.
docs/script.md has all of it.
";
