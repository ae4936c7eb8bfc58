//! Worked rows and outside values of the calls on limbs, by the small field and the large one. A line has the call,
//! its arguments and its answer.

/// Between `f17` and `bb`.
pub(crate) const F17_INTO_BB: &str = "max_packed_injective_limbs;5;6
max_shifted_packed_injective_limbs;5;6
reduce_packed;5|1;1
reduce_packed;5|1,0;1
reduce_packed_shifted;5|1;2
reduce_packed_shifted;5|1,0;34
squeeze_field_order_num_limbs;;6
split_pf_to_field_order_limbs;100|3;15,5,0
max_shifted_packed_injective_limbs;2;14
max_shifted_packed_injective_limbs;6;5
max_shifted_packed_injective_limbs;10;3
max_shifted_packed_injective_limbs;14;2
max_shifted_packed_injective_limbs;18;2
max_shifted_packed_injective_limbs;22;2
max_shifted_packed_injective_limbs;26;2
max_shifted_packed_injective_limbs;30;1
max_shifted_packed_injective_limbs;34;1
max_shifted_packed_injective_limbs;38;1
max_shifted_packed_injective_limbs;42;1
max_shifted_packed_injective_limbs;46;1
max_shifted_packed_injective_limbs;50;1
max_shifted_packed_injective_limbs;54;1
max_shifted_packed_injective_limbs;58;1
max_shifted_packed_injective_limbs;62;1
reduce_packed;54|;0
reduce_packed_shifted;21|4;5
reduce_32;16,1;268435470
split_pf_to_packed_limbs;1861541286|7|4;6,10,13,13,4,15,14
split_pf_to_field_order_limbs;479917253|2;11,5
split_32;1062174648|5;11,0,0,0,0
pf_packed_limbs_cover_order;64|61;true
reduce_packed;15|0,2,0,9,0,1,16,12;759828518
reduce_packed_shifted;29|2,16,16,9,16,16,16,13,13;1075701143
reduce_32;0,3,0,9,1,0,0,6,3,6;84023934
split_pf_to_packed_limbs;2013265920|2|4;0,0";

/// Between `f2` and `f17`.
pub(crate) const F2_INTO_F17: &str = "max_packed_injective_limbs;1;4
max_shifted_packed_injective_limbs;1;3
max_shifted_packed_injective_limbs;4;1
max_shifted_packed_injective_limbs;8;1
max_shifted_packed_injective_limbs;12;1
max_shifted_packed_injective_limbs;16;1
max_shifted_packed_injective_limbs;20;1
max_shifted_packed_injective_limbs;24;1
max_shifted_packed_injective_limbs;28;1
max_shifted_packed_injective_limbs;32;1
max_shifted_packed_injective_limbs;36;1
max_shifted_packed_injective_limbs;40;1
max_shifted_packed_injective_limbs;44;1
max_shifted_packed_injective_limbs;48;1
max_shifted_packed_injective_limbs;52;1
max_shifted_packed_injective_limbs;56;1
max_shifted_packed_injective_limbs;60;1
max_shifted_absorb_injective_limbs;;3
split_32;5|0;
reduce_packed;55|0,0;0
reduce_32;0,1,1;2
split_32;2|1;0
reduce_packed;56|0,0,1,1,0,1;3
reduce_32;0,0,1,1,0,0,1;3
split_32;9|3;1,0,0
reduce_packed;15|1,1,0,0,0,0,1,1,1,1;9
reduce_32;1,1,1,1,0,0,1,1,1,1,1;9";

/// Between `kb` and `bb`.
pub(crate) const KB_INTO_BB: &str = "reduce_32;1,2,3;26843556
reduce_32;;0
max_packed_injective_limbs;2;0
max_packed_injective_limbs;6;0
max_packed_injective_limbs;10;0
max_packed_injective_limbs;14;0
max_packed_injective_limbs;18;0
max_packed_injective_limbs;22;0
max_packed_injective_limbs;26;0
max_packed_injective_limbs;30;0
max_packed_injective_limbs;34;0
max_packed_injective_limbs;38;0
max_packed_injective_limbs;42;0
max_packed_injective_limbs;46;0
max_packed_injective_limbs;50;0
max_packed_injective_limbs;54;0
max_packed_injective_limbs;58;0
max_packed_injective_limbs;62;0
injective_pack_bits;;30
reduce_packed;45|423615209;423615209
reduce_packed_shifted;39|629833338,1338444871;1827986703
reduce_32;1,48213878,734997027;128345573
split_pf_to_packed_limbs;740751875|0|11;
split_pf_to_field_order_limbs;1860917625|3;1860917625,0,0
split_32;2013265920|5;2013265920,0,0,0,0
pf_packed_limbs_cover_order;34|51;true
reduce_packed;47|59038214,17261200,0,1,2130706432,1927901175,1400947455,2130706432,2130706432;1467496454
reduce_packed_shifted;44|0,2130706432,2130706432,1,1840865738,983491306,1,2130706432,1701529138,1092845592;903361592
reduce_32;1,2130706432,0,2130706432,0,677611576,2130706432,0,0,0,579711461;668336551";

/// Between `bb` and `gl`.
pub(crate) const BB_INTO_GL: &str =
    "split_pf_to_packed_limbs;18446744069414584320|3|30;0,1073741820,15
split_pf_to_packed_limbs;12345678901234567890|3|30;723454674,760391219,10
pf_packed_limbs_cover_order;3|30;true
pf_packed_limbs_cover_order;2|30;false
absorb_radix_bits;;31
injective_pack_bits;;30
max_absorb_injective_limbs;;2
max_shifted_absorb_injective_limbs;;2
squeeze_field_order_num_limbs;;1
split_32;18446744069414584320|2;903732709,0
split_32;0|3;0,0,0
max_shifted_packed_injective_limbs;4;9
max_shifted_packed_injective_limbs;8;5
max_shifted_packed_injective_limbs;12;3
max_shifted_packed_injective_limbs;16;3
max_shifted_packed_injective_limbs;20;2
max_shifted_packed_injective_limbs;24;2
max_shifted_packed_injective_limbs;28;2
max_shifted_packed_injective_limbs;32;2
max_shifted_packed_injective_limbs;36;1
max_shifted_packed_injective_limbs;40;1
max_shifted_packed_injective_limbs;44;1
max_shifted_packed_injective_limbs;48;1
max_shifted_packed_injective_limbs;52;1
max_shifted_packed_injective_limbs;56;1
max_shifted_packed_injective_limbs;60;1
max_shifted_absorb_injective_limbs;;2
split_pf_to_field_order_limbs;18446744069414584320|7;903732709,1109533207,4,0,0,0,0
split_32;1|7;1,0,0,0,0,0,0
pf_packed_limbs_cover_order;21|61;true
reduce_packed;55|1951887892,1720540116,0,692136045;13983176623651371276
reduce_packed_shifted;50|42960799,252051739,1767132348,2013265920,1286084015;293363300517687224
reduce_32;2013265920,580199735,1,1,1195446955,2013265920;7157366104329814015
split_pf_to_packed_limbs;1|0|10;
split_pf_to_field_order_limbs;16685887595054941966|5;1532519467,234906335,4,0,0
split_32;17781355344487190749|4;1454898893,0,0,0
pf_packed_limbs_cover_order;61|1;false";

/// Between `f17` and `gl`.
pub(crate) const F17_INTO_GL: &str = "max_packed_injective_limbs;63;1
max_packed_injective_limbs;3;20
max_packed_injective_limbs;7;9
max_packed_injective_limbs;11;6
max_packed_injective_limbs;15;4
max_packed_injective_limbs;19;4
max_packed_injective_limbs;23;3
max_packed_injective_limbs;27;3
max_packed_injective_limbs;31;2
max_packed_injective_limbs;35;2
max_packed_injective_limbs;39;2
max_packed_injective_limbs;43;2
max_packed_injective_limbs;47;2
max_packed_injective_limbs;51;2
max_packed_injective_limbs;55;2
max_packed_injective_limbs;59;2
max_packed_injective_limbs;63;1
reduce_packed_shifted;58|;0
reduce_32;16;16
split_pf_to_packed_limbs;1375813354461191410|2|2;2,0
split_pf_to_field_order_limbs;18446744069414584320|5;0,9,6,11,3
split_32;0|6;0,0,0,0,0,0
pf_packed_limbs_cover_order;55|40;true
reduce_packed;47|16,0,16,6,0,16,14;4035154896440262668
reduce_packed_shifted;6|16,5,15,16,0,1,0,10;48449399882129
reduce_32;16,2,16,13,13,12,0,2,1;18446744052234715135
split_pf_to_packed_limbs;18446744069414584320|5|3;0,0,0,0,0
split_pf_to_field_order_limbs;8184270437316653613|5;8,16,6,16,9";

/// Between `f2` and `gl`.
pub(crate) const F2_INTO_GL: &str = "max_packed_injective_limbs;63;2
squeeze_field_order_num_limbs;;62
max_packed_injective_limbs;3;22
max_packed_injective_limbs;7;10
max_packed_injective_limbs;11;6
max_packed_injective_limbs;15;5
max_packed_injective_limbs;19;4
max_packed_injective_limbs;23;3
max_packed_injective_limbs;27;3
max_packed_injective_limbs;31;3
max_packed_injective_limbs;35;2
max_packed_injective_limbs;39;2
max_packed_injective_limbs;43;2
max_packed_injective_limbs;47;2
max_packed_injective_limbs;51;2
max_packed_injective_limbs;55;2
max_packed_injective_limbs;59;2
max_packed_injective_limbs;63;2
reduce_packed_shifted;14|;0
split_pf_to_field_order_limbs;0|6;0,0,0,0,0,0
pf_packed_limbs_cover_order;23|46;true
reduce_packed_shifted;12|0,0,1,0;68753035265
split_pf_to_field_order_limbs;0|4;0,0,0,0
pf_packed_limbs_cover_order;27|53;true
reduce_packed_shifted;59|0,1,0,1,1,0,1,1;1151830755782164361
split_pf_to_field_order_limbs;1|3;1,0,0
pf_packed_limbs_cover_order;58|2;true";

/// Between `f2` and `f2`.
pub(crate) const F2_INTO_F2: &str = "max_packed_injective_limbs;1;1
max_shifted_packed_injective_limbs;1;0
pf_packed_limbs_cover_order;1|1;true
pf_packed_limbs_cover_order;0|1;false
pf_packed_limbs_cover_order;18446744073709551615|2;false
max_packed_injective_limbs;2;1
max_packed_injective_limbs;6;1
max_packed_injective_limbs;10;1
max_packed_injective_limbs;14;1
max_packed_injective_limbs;18;1
max_packed_injective_limbs;22;1
max_packed_injective_limbs;26;1
max_packed_injective_limbs;30;1
max_packed_injective_limbs;34;1
max_packed_injective_limbs;38;1
max_packed_injective_limbs;42;1
max_packed_injective_limbs;46;1
max_packed_injective_limbs;50;1
max_packed_injective_limbs;54;1
max_packed_injective_limbs;58;1
max_packed_injective_limbs;62;1
injective_pack_bits;;0
reduce_packed_shifted;46|1;0
split_pf_to_field_order_limbs;1|3;1,0,0
pf_packed_limbs_cover_order;41|52;true
reduce_packed_shifted;7|0,1,1,1,0;1
split_pf_to_field_order_limbs;1|4;1,0,0,0
pf_packed_limbs_cover_order;56|39;true
reduce_packed_shifted;61|0,1,1,1,1,0,0,1,0;1
split_pf_to_field_order_limbs;1|1;1
pf_packed_limbs_cover_order;54|9;true";

/// Between `f17` and `f2`.
pub(crate) const F17_INTO_F2: &str = "max_packed_injective_limbs;5;0
max_shifted_packed_injective_limbs;1;0
max_shifted_packed_injective_limbs;5;0
max_shifted_packed_injective_limbs;9;0
max_shifted_packed_injective_limbs;13;0
max_shifted_packed_injective_limbs;17;0
max_shifted_packed_injective_limbs;21;0
max_shifted_packed_injective_limbs;25;0
max_shifted_packed_injective_limbs;29;0
max_shifted_packed_injective_limbs;33;0
max_shifted_packed_injective_limbs;37;0
max_shifted_packed_injective_limbs;41;0
max_shifted_packed_injective_limbs;45;0
max_shifted_packed_injective_limbs;49;0
max_shifted_packed_injective_limbs;53;0
max_shifted_packed_injective_limbs;57;0
max_shifted_packed_injective_limbs;61;0
absorb_radix_bits;;5
pf_packed_limbs_cover_order;48|42;true
reduce_packed;45|15,1;1
reduce_packed_shifted;7|16,16,4;1
reduce_32;10,16,8,3;0
split_pf_to_packed_limbs;0|5|1;0,0,0,0,0
split_pf_to_field_order_limbs;0|2;0,0
split_32;1|2;1,0
pf_packed_limbs_cover_order;19|49;true
reduce_packed;56|1,4,2,0,11,0,3,14,6,0;1
reduce_packed_shifted;15|8,0,16,3,16,0,1,16,3,1,15;1";

/// Between `f17` and `f17`.
pub(crate) const F17_INTO_F17: &str = "squeeze_field_order_num_limbs;;0
max_packed_injective_limbs;2;1
max_packed_injective_limbs;6;1
max_packed_injective_limbs;10;1
max_packed_injective_limbs;14;1
max_packed_injective_limbs;18;1
max_packed_injective_limbs;22;1
max_packed_injective_limbs;26;1
max_packed_injective_limbs;30;1
max_packed_injective_limbs;34;1
max_packed_injective_limbs;38;1
max_packed_injective_limbs;42;1
max_packed_injective_limbs;46;1
max_packed_injective_limbs;50;1
max_packed_injective_limbs;54;1
max_packed_injective_limbs;58;1
max_packed_injective_limbs;62;1
injective_pack_bits;;4
reduce_packed;46|16;16
reduce_packed_shifted;31|9,7;14
reduce_32;0,13,2;15
split_pf_to_packed_limbs;16|2|4;0,1
split_pf_to_field_order_limbs;10|5;10,0,0,0,0
split_32;1|0;
pf_packed_limbs_cover_order;18|5;true
reduce_packed;7|1,3,10,12,1,0,1,13,1;11
reduce_packed_shifted;33|12,1,0,16,8,2,9,0,15,16;8
reduce_32;1,9,0,15,5,0,2,16,1,12,2;12";

/// Between `f31` and `kb`.
pub(crate) const F31_INTO_KB: &str = "max_shifted_packed_injective_limbs;3;9
max_shifted_packed_injective_limbs;7;4
max_shifted_packed_injective_limbs;11;3
max_shifted_packed_injective_limbs;15;2
max_shifted_packed_injective_limbs;19;2
max_shifted_packed_injective_limbs;23;2
max_shifted_packed_injective_limbs;27;1
max_shifted_packed_injective_limbs;31;1
max_shifted_packed_injective_limbs;35;1
max_shifted_packed_injective_limbs;39;1
max_shifted_packed_injective_limbs;43;1
max_shifted_packed_injective_limbs;47;1
max_shifted_packed_injective_limbs;51;1
max_shifted_packed_injective_limbs;55;1
max_shifted_packed_injective_limbs;59;1
max_shifted_packed_injective_limbs;63;1
reduce_32;;0
split_pf_to_packed_limbs;163948190|0|3;
split_pf_to_field_order_limbs;2130706432|2;17,9
split_32;1682586272|1;16
pf_packed_limbs_cover_order;0|9;false
reduce_packed;26|23,28,6,30,27,0;450222709
reduce_packed_shifted;15|13,1,13,30,17,0,6;1134980784
reduce_32;1,1,21,9,13,30,1,13;625121481
split_pf_to_packed_limbs;1|6|1;1,0,0,0,0,0
split_pf_to_field_order_limbs;1543184533|3;7,5,11
split_32;116813019|2;28,0";

/// Between `z15` and `bb`.
pub(crate) const Z15_INTO_BB: &str = "max_packed_injective_limbs;4;7
max_packed_injective_limbs;8;4
max_packed_injective_limbs;12;3
max_packed_injective_limbs;16;2
max_packed_injective_limbs;20;2
max_packed_injective_limbs;24;2
max_packed_injective_limbs;28;1
max_packed_injective_limbs;32;1
max_packed_injective_limbs;36;1
max_packed_injective_limbs;40;1
max_packed_injective_limbs;44;1
max_packed_injective_limbs;48;1
max_packed_injective_limbs;52;1
max_packed_injective_limbs;56;1
max_packed_injective_limbs;60;1
max_absorb_injective_limbs;;7
split_pf_to_packed_limbs;2013265920|6|1;0,0,0,0,0,0
split_pf_to_field_order_limbs;560157331|0;
split_32;444196655|0;
pf_packed_limbs_cover_order;0|7;false
reduce_packed;59|13,0,4,11,1;1942250717
reduce_packed_shifted;49|14,4,12,13,14,5;1809496911
reduce_32;7,14,0,13,1,14,1;1940136115
split_pf_to_packed_limbs;1374889143|7|2;3,1,3,2,0,1,2
split_pf_to_field_order_limbs;1|0;
split_32;569808424|3;4,0,0
pf_packed_limbs_cover_order;57|9;true";

/// Between `kb` and `gl`.
pub(crate) const KB_INTO_GL: &str = "max_packed_injective_limbs;1;33
max_packed_injective_limbs;5;7
max_packed_injective_limbs;9;4
max_packed_injective_limbs;13;3
max_packed_injective_limbs;17;2
max_packed_injective_limbs;21;2
max_packed_injective_limbs;25;2
max_packed_injective_limbs;29;2
max_packed_injective_limbs;33;2
max_packed_injective_limbs;37;1
max_packed_injective_limbs;41;1
max_packed_injective_limbs;45;1
max_packed_injective_limbs;49;1
max_packed_injective_limbs;53;1
max_packed_injective_limbs;57;1
max_packed_injective_limbs;61;1
squeeze_field_order_num_limbs;PF,TF swapped: target is the first name;1
split_32;0|5;0,0,0,0,0
pf_packed_limbs_cover_order;30|41;true
reduce_packed;38|1872736208,1589624772,1548621861;10480510852268906996
reduce_packed_shifted;35|1364069758,282532277,2130706432,617480594;5096049095333308191
reduce_32;2130706432,1854713177,0,928299709,348636546;6468549876617266499
split_pf_to_packed_limbs;4122943493366978736|0|23;
split_pf_to_field_order_limbs;5285406325020945492|6;866067629,349882278,1,0,0,0
split_32;0|2;0,0
pf_packed_limbs_cover_order;22|9;true
reduce_packed;34|0,1700946992,166031361,1,471413944,1517316589,440162729,1930280503,1283218559,117577173,1292368454;9271810558651051124";

/// Between `bb` and `kb`.
pub(crate) const BB_INTO_KB: &str = "max_shifted_packed_injective_limbs;1;1
max_shifted_packed_injective_limbs;5;1
max_shifted_packed_injective_limbs;9;1
max_shifted_packed_injective_limbs;13;1
max_shifted_packed_injective_limbs;17;1
max_shifted_packed_injective_limbs;21;1
max_shifted_packed_injective_limbs;25;1
max_shifted_packed_injective_limbs;29;1
max_shifted_packed_injective_limbs;33;1
max_shifted_packed_injective_limbs;37;1
max_shifted_packed_injective_limbs;41;1
max_shifted_packed_injective_limbs;45;1
max_shifted_packed_injective_limbs;49;1
max_shifted_packed_injective_limbs;53;1
max_shifted_packed_injective_limbs;57;1
max_shifted_packed_injective_limbs;61;1
absorb_radix_bits;;31
pf_packed_limbs_cover_order;32|23;true
reduce_packed;60|550919079,527147126;387951584
reduce_packed_shifted;51|287867797,2013265920,1802062775;543208400
reduce_32;996523512,839110180,2013265920,653060436;795911090
split_pf_to_packed_limbs;219719046|6|14;9606,13410,0,0,0,0
split_pf_to_field_order_limbs;1|5;1,0,0,0,0
split_32;323981086|6;323981086,0,0,0,0,0
pf_packed_limbs_cover_order;9|53;true
reduce_packed;61|778854298,2013265920,1787289817,2013265920,0,1,1662109787,1957806266,813543812,681702557;863011053
reduce_packed_shifted;47|1496474299,1025989773,135027255,0,1,1564335334,2013265920,625369610,2013265920,1874409219,2013265920;1131513492";

/// Between `bb` and `f17`.
pub(crate) const BB_INTO_F17: &str = "max_shifted_packed_injective_limbs;2;0
max_shifted_packed_injective_limbs;6;0
max_shifted_packed_injective_limbs;10;0
max_shifted_packed_injective_limbs;14;0
max_shifted_packed_injective_limbs;18;0
max_shifted_packed_injective_limbs;22;0
max_shifted_packed_injective_limbs;26;0
max_shifted_packed_injective_limbs;30;0
max_shifted_packed_injective_limbs;34;0
max_shifted_packed_injective_limbs;38;0
max_shifted_packed_injective_limbs;42;0
max_shifted_packed_injective_limbs;46;0
max_shifted_packed_injective_limbs;50;0
max_shifted_packed_injective_limbs;54;0
max_shifted_packed_injective_limbs;58;0
max_shifted_packed_injective_limbs;62;0
reduce_packed;50|;0
reduce_packed_shifted;48|1;2
reduce_32;867962287,824342845;12
split_pf_to_packed_limbs;14|7|13;14,0,0,0,0,0,0
split_pf_to_field_order_limbs;16|1;16
split_32;13|0;
pf_packed_limbs_cover_order;60|51;true
reduce_packed;40|2013265920,1,2013265920,0,2013265920,1977495324,0,162267511;5
reduce_packed_shifted;57|457668715,1,1,1,1,2013265920,261972444,0,1;14
reduce_32;1,1976894172,1,22945527,1329124530,1288051432,290865212,512239198,1527751346,2013265920;14
split_pf_to_packed_limbs;11|5|18;11,0,0,0,0";
