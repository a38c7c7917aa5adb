//! What `help` and `version` say.

/// The usage: each command with its words, what the words may be, the statuses, and where the formats stand.
pub const USAGE: &str = "meteragg: the total of each group of smart meters, from hidden readings.

Commands
  run PLAN READINGS REPORT TRANSCRIPT [WORKERS]
      run the plan on the readings; write the report and the transcript
  ring PLAN READINGS WIDTH REPORT TRANSCRIPT [WORKERS]
      the same with masks between meters at most WIDTH places away on the ring of
      their group alone; print besides the fewest meters whose sum is open
  resume PLAN READINGS CUT REPORT TRANSCRIPT [WORKERS]
      go on from the transcript CUT of a run that was cut short: write the report
      and the transcript of the run, beginning with the entries of CUT
  registers K PLAN READINGS REPORT TRANSCRIPT WORDS [WORKERS]
      run the plan on readings of K registers, as day and night; write the report
      with a total of each, the transcript, and the words of the further registers
  audit TRANSCRIPT REPORT
      check the report against the transcript alone, with no key and no reading
  twin PLAN READINGS OTHER TRANSCRIPT MASKS
      show that other readings with the same totals give the same transcript;
      write the mask words that would differ. For those who hold the keys:
      whoever has MASKS and OTHER has the readings. Keep MASKS, and show a
      regulator what is printed
  ringtwin PLAN READINGS OTHER WIDTH TRANSCRIPT MASKS
      the same for a transcript of ring: OTHER has the same sum over each open
      piece of the ring
  pooled KNOWN PLAN READINGS OTHER TRANSCRIPT MASKS
      the same against the meters KNOWN, who share their keys and readings: OTHER
      has the same readings of these, and the same totals of the others
  make SEED GROUPS METERS ROUNDS PLAN READINGS
      make a plan and readings from a seed, and write them
  load SEED GROUPS METERS ROUNDS WORKERS [TRANSCRIPT]
      make a plan and readings from a seed, run them, and print the summary
  convert OLD TRANSCRIPT
      write a transcript of version 1 as a transcript of version 2
  public PLAN PUBLIC
      write the plan without its keys and lanes
  parts PLAN G PREFIX
      write for each meter I of group G what it has of the plan, PREFIXI.csv, and
      the head of its journal, PREFIXI.journal, which are to be new; only their
      owner may read them
  collect PUBLIC JOURNAL REPORT
      be a head end without keys: answer the frames and ticks that come in as
      lines, keep them in JOURNAL, and write the report at the end of the input
  meter METER JOURNAL
      be one meter: answer readings and announcements that come in as lines, and
      keep in JOURNAL what it has said
  inspect PUBLIC TRANSCRIPT REPORT
      check that the transcript is one that a run of the public plan can leave, and
      the report against it; count the opened rounds that have no total
  bill PLAN READINGS FROM UNTIL BILLS
      write in clear what each meter used in a period of rounds
  hide PLAN READINGS TRANSCRIPT FROM UNTIL G R I OTHER
      find readings that differ at a place, and have the same totals and the same
      bills of a period; write them
  help, --help, -h
      print this text
  version, --version, -V
      print the name and the version

Words
  WIDTH    1 to 128
  K        2 to 8 registers
  WORKERS  1 to 16 threads that make the ticks of the groups, one for about 1000
           meters, no more than groups, and two fewer than there are processors,
           but at least one; 4 where it may be left out and is
  KNOWN    - for nobody, or meters joined by +, as 0.1+0.4+2.0: each a group and a
           meter with a point between them, below 256, ascending, each once
  SEED     0 to 18446744073709551615
  GROUPS   1 to 256
  METERS   2 to 256, in each group
  ROUNDS   1 to 4096; GROUPS times METERS times ROUNDS is at most 131072, and
           GROUPS times METERS times (METERS - 1) at most 2097152
  FROM     0 to 4095, below UNTIL: a period begins with round FROM
  UNTIL    1 to 4096: it ends before round UNTIL
  G, R, I  a group, a round and a meter: below 256, 4096 and 256
  PREFIX   what the names of the files of meters begin with; it may be empty
  All other words are file names. No two names of one command are equal.

Statuses
   0  done
   1  out of memory
   2  the words are not a command
   3  a file or the input cannot be read, or a file is longer than 268435456
      bytes
   4  a file cannot be written, or the result cannot be printed
   5  the plan has a fault
   6  the readings have a fault
   7  the transcript, the report or the journal has a fault, or is not that of
      these files
   8  the two tables of readings differ in a place, in a reading of KNOWN, in an
      opened total, or in the sum over an open piece of a ring
   9  the report says something else than the transcript
  10  a lane of the plan does not exist or does not take its argument
  11  no other reading of the period can hide this one

docs/FORMATS.md describes the files, and what is printed at each status.
";

/// The program's name and version.
pub const VERSION: &str = "meteragg 0.9.0\n";
