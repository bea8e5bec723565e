// The rules of the grammar, by a line for each way in which one of them is kept or broken.

/// Lines of a script with three nodes, each with the rule of the grammar that it breaks, or nothing.
pub const LINES: &str = r##"# no command|
#|
|
campaign n2|
foo n0|UnknownCommand
 |UnknownCommand
 log n0|UnknownCommand
Drain n0|UnknownCommand
set 3|UnknownCommand
drain|WordCount
drain n0 |WordCount
drain  n0|WordCount
drain n0 n0|WordCount
state|WordCount
rolled n9 x|WordCount
insert n0 t|WordCount
insert n0 t |WordCount
replace n0 t|WordCount
update n0 t|WordCount
delete n0 t|WordCount
retry n0 7 1 insert t|WordCount
retry n9 x 0 drop t|WordCount
retry n0 7 1 insert t |WordCount
begin n0 w1 insert t|WordCount
begin n9 x drop t|WordCount
commit n0|WordCount
commit n0 w1 w1|WordCount
abort n0|WordCount
ack n0 w1|WordCount
ack n0 w1 1 1|WordCount
read n0 local t|WordCount
read n0 local t |WordCount
dump n0|WordCount
dump n0 local t|WordCount
heartbeat n0|WordCount
report n0 n1 n2|WordCount
common n0|WordCount
fetch n0 n1|WordCount
note|WordCount
note n0 |WordCount
note n0 1|WordCount
deliver|WordCount
deliver n0 n1 n2|WordCount
apply n0 1 1|WordCount
reconfig n0|WordCount
reconfig n0 |WordCount
crash n0 0 0|WordCount
restart n0 0|WordCount
diskfail n0 journal|WordCount
diskfail n0 journal 1 0 0|WordCount
clock n0|WordCount
par 1|WordCount
thread n0|WordCount
end |WordCount
thread|StrayLine
end|StrayLine
drain n3|BadNode
drain 0|BadNode
drain n|BadNode
drain N0|BadNode
drain n4294967296|BadNode
log n-0|BadNode
insert n3 1 x|BadNode
clock n3 2147483648|BadNode
heartbeat n0 n0|BadNode
heartbeat n0 n00|BadNode
heartbeat n0 n3|BadNode
report n1 n1|BadNode
common n2 m1|BadNode
deliver n2 n2|BadNode
deliver n0 n3|BadNode
deliver n3 x|BadNode
deliver m1 n0|BadNode
reconfig n3 x|BadNode
retry n3 x 0 drop t 1|BadNode
retry 7 1 1 insert t {_id: 1}|BadNode
note n3|BadNode
retry n0 4294967296 0 drop t 1|BadNumber
retry n0 18446744073709551616 1 insert t {_id: 1}|BadNumber
retry n0 7 0 drop t 1|BadNumber
retry n0 7 2147483648 insert t {_id: 1}|BadNumber
ack n0 w1 0|BadNumber
ack n0 w1 51|BadNumber
ack n0 w1 18446744073709551616|BadNumber
apply n0 0|BadNumber
apply n0 17|BadNumber
crash n0 18446744073709551616|BadNumber
diskfail n0 journal 0|BadNumber
diskfail n0 journal 1001|BadNumber
diskfail n0 journal 1 18446744073709551616|BadNumber
diskfail n0 journal 0 x|BadNumber
clock n0 2147483648|BadNumber
clock n0 99999999999999999999|BadNumber
deliver n0|BadWord
deliver 0|BadWord
deliver m|BadWord
deliver m1x|BadWord
deliver m18446744073709551616|BadWord
commit n0 w1000|BadWord
commit n0 w|BadWord
commit n0 W1|BadWord
abort n0 x1|BadWord
abort n0 |BadWord
begin n0 w1 drop t {_id: 1}|BadWord
begin n0 w1 Insert t {_id: 1}|BadWord
begin n0 w insert t {_id: 1}|BadWord
begin n0 w1  t {_id: 1}|BadWord
retry n0 s7 0 insert t {_id: 1}|BadWord
retry n0 -1 1 insert t {_id: 1}|BadWord
retry n0  1 insert t {_id: 1}|BadWord
retry n0 7 +1 insert t {_id: 1}|BadWord
retry n0 7 1x insert t {_id: 1}|BadWord
retry n0 7 1 drop t {_id: 1}|BadWord
retry n0 7 1 Insert t {_id: 1}|BadWord
retry n0 7 1 note t {_id: 1}|BadWord
retry n0 7 1 begin w1 insert t {_id: 1}|BadWord
retry n0 7 1 insert 1t x|BadWord
ack n0 5 1|BadWord
ack n0 n1 1|BadWord
ack n0 w1000 0|BadWord
ack n0 w1 most|BadWord
ack n0 w1 |BadWord
ack n0 1/2 1|BadWord
ack n0 1/2/ 1|BadWord
ack n0 1/2/3/4 1|BadWord
ack n0 /2/3 1|BadWord
ack n0 18446744073709551616/0/0 1|BadWord
ack n0 0/4294967296/0 1|BadWord
ack n0 0/0/4294967296 1|BadWord
read n0 snapshot t 1|BadWord
read n0 Local t 1|BadWord
read n0 local  1|BadWord
dump n0 all|BadWord
dump n0 |BadWord
insert n0 1t {_id: 1}|BadWord
insert n0  {_id: 1}|BadWord
replace n0 t-u 1 {}|BadWord
update n0 _t 1 {}|BadWord
delete n0 é 1|BadWord
delete n0 tttttttttttttttttttttttttttttttttttttttttttttttttttttttttttttttt 1|
delete n0 ttttttttttttttttttttttttttttttttttttttttttttttttttttttttttttttttt 1|BadWord
apply n0 |BadWord
apply n0 all|BadWord
crash n0 -1|BadWord
diskfail n0 disk 1|BadWord
diskfail n0 journal x|BadWord
diskfail n0 journal 1 x|BadWord
clock n0 1s|BadWord
clock n0 -1|BadWord
insert n0 t {_id: 1|BadText 1 Unexpected
insert n0 t {_id: 1} |BadText 1 Unexpected
insert n0 t  {_id: 1}|BadText 1 Unexpected
insert n0 t 1|BadText 1 Unexpected
insert n0 t {_id: 2147483648}|BadText 2 Number
delete n0 t 1 2|BadText 1 Unexpected
delete n0 t "\x"|BadText 3 Escape
delete n0 t Id("0g")|BadText 4 Hex
delete n0 t Id("00")|BadText 4 Hex
insert n0 t {a: 1, a: 2}|BadText 5 DuplicateName
insert n0 t {"\u0000": 1}|BadText 7 NameZero
replace n0 t 1|BadText 1 Unexpected
replace n0 t 1  {}|BadText 1 Unexpected
replace n0 t 1{}|BadText 1 Unexpected
replace n0 t 1 2|BadText 1 Unexpected
replace n0 t 1 {a: 1, a: 2}|BadText 5 DuplicateName
update n0 t {a: 1, a: 2} x|BadText 5 DuplicateName
update n0 t 1 {$set: {a: 2147483648}}|BadText 2 Number
retry n0 7 1 update t 1|BadText 1 Unexpected
retry n0 7 1 insert t []|BadText 1 Unexpected
retry n0 7 1 delete t 1 2|BadText 1 Unexpected
retry n0 7 1 replace t 1 {a: 1, a: 2}|BadText 5 DuplicateName
retry n0 4294967295 2147483647 delete t 1|
retry n0 00 01 insert t {_id: 1}|
begin n0 w1 update t 1|BadText 1 Unexpected
begin n0 w1 insert t []|BadText 1 Unexpected
read n0 local t {_id: 1}|
read n0 local t 1 |BadText 1 Unexpected
reconfig n0 x|BadConfigText
reconfig n0 {}|BadConfigText
reconfig n0 {"version":2}|BadConfigText
reconfig n0 {"version":0,"members":[]}|BadConfigText
reconfig n0 {"version":2147483648,"members":[]}|BadConfigText
reconfig n0 {"version":1.0,"members":[]}|BadConfigText
reconfig n0 {"version":2,"members":[{}]}|BadConfigText
reconfig n0 {"version":2,"members":[{"_id":0,"votes":2}]}|BadConfigText
reconfig n0 {"version":2,"members":[{"_id":0,"priority":1001}]}|BadConfigText
reconfig n0 {"version":2,"members":[{"_id":0,"arbiterOnly":true}]}|BadConfigText
reconfig n0 {"version":2,"members":[]} x|BadConfigText
reconfig n0 {"version":2,"members":[]}|"##;
